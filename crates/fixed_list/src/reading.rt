//! What can be read of a list.
ghost use Rattle.std.specs.Prelude.{◌≡◌, ◌≤◌, length};
ghost use Rattle.fixed_list.specs.Listed.{listed};

use crate::FixedList;

impl<T: Copy, const N: usize> FixedList<T, N> {
    /// How many items there are.
    pub fn len(&self) -> usize
        ensures is { result ≡ length (listed self.now) }
        ensures fits { result ≤ N }
    {
        self.len
    }

    /// The items.
    pub fn as_slice(&self) -> &[T]
        ensures is { result.now ≡ listed self.now }
        ensures fits { length result.now ≤ N }
    {
        &self.items[..self.len]
    }
}
