//! Two lists are equal if they hold equal items in the same order.
ghost use Rattle.std.specs.Ordering.{on};
ghost use Rattle.std.specs.Cmp.{on_per};
ghost use Rattle.std.specs.Cmp.Lexicographic.{pointwise, lists_per};
ghost use Rattle.fixed_list.specs.Listed.{listed};

use crate::FixedList;

// A derived one would compare what only fills the room, too.
impl<T: PartialEq + Copy, const N: usize> PartialEq for FixedList<T, N> {
    ghost eq = { on listed (pointwise T.eq) };

    ghost laws = { on_per listed (lists_per T.laws) };

    fn eq(&self, other: &FixedList<T, N>) -> bool {
        self.as_slice() == other.as_slice()
    }
}
