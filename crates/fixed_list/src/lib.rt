//! A list of at most `N` items, held inline, so that no call on it can fail for want of memory. It is `Copy`, which the
//! kit's `arrayvec::ArrayVec` is not.
#![tactic(auto)]

ghost use Rattle.std.specs.Prelude.{⊤, ◌≡◌, ◌≤◌, length};

use std::alloc::AllocError;

mod calls;
mod equal;
mod reading;

/// At most `N` items: the first `len` of `items`. The rest only fill the room.
pub struct FixedList<T, const N: usize> {
    items: [T; N],
    len: usize,
    ghost full: { length items ≡ N },
    ghost short: { len ≤ N },
}

impl<T: Copy, const N: usize> Copy for FixedList<T, N> {}

// A derived one would make the list anew, and owe its ghost fields.
impl<T: Copy, const N: usize> Clone for FixedList<T, N> {
    ghost is_clone = { λ v w. w ≡ v };

    ghost is_infallible = { λ _. ⊤ };

    fn clone(&self) -> Result<Self, AllocError> {
        Ok(*self)
    }
}
