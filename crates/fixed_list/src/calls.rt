//! The calls that make a list and edit it. Where one needs room or an item, it requires so, as an index of a slice does: the
//! caller knows, or tests first.
ghost use Rattle.std.specs.Prelude.{◌≡◌, ◌+◌, ◌<◌, ◌≤◌, [], ◌∷◌, ◌++◌, length, insert, remove, slice_index_or};
ghost use Rattle.std.specs.Borrow.{sem};
ghost use Rattle.fixed_list.specs.Listed.{listed};

use crate::FixedList;

impl<T: Copy, const N: usize> FixedList<T, N> {
    ghost use Rattle.fixed_list.specs.Lends.{lends_item};

    /// No item. The room is filled with `blank`.
    pub fn new(blank: T) -> Self
        ensures { listed result ≡ [] }
    {
        FixedList {
            items: [blank; N],
            len: 0,
        }
    }

    /// Lends an item, for writing.
    pub fn item_mut(&mut self, place: usize) -> &mut T
        requires { place < length (listed self.old) }
        ensures* writes_back { sem 𝓛 (lends_item T.row N.row self.entry place result) }
        ensures value { result.now ≡ slice_index_or (listed self.old) place result.now }
    {
        &mut self.items[place]
    }

    /// Puts an item at the end.
    pub fn push(&mut self, item: T)
        requires { length (listed self.old) < N }
        ensures { listed self.new ≡ listed self.old ++ item ∷ [] }
    {
        self.items[self.len] = item;
        self.len += 1;
    }

    /// Puts an item at a place, and moves the later ones up.
    pub fn insert(&mut self, place: usize, item: T)
        requires place { place ≤ length (listed self.old) }
        requires room { length (listed self.old) < N }
        ensures { listed self.new ≡ insert (listed self.old) place item }
    {
        self.items.copy_within(place..self.len, place + 1);
        self.len += 1;
        self.items[place] = item;
    }

    /// Takes out the item at a place, and moves the later ones down.
    pub fn remove(&mut self, place: usize)
        requires { place < length (listed self.old) }
        ensures { listed self.new ≡ remove (listed self.old) place }
    {
        self.items.copy_within(place + 1..self.len, place);
        self.len -= 1;
    }

    /// Puts items at the end.
    pub fn extend_from_slice(&mut self, more: &[T])
        requires { length (listed self.old) + length more.now ≤ N }
        ensures { listed self.new ≡ listed self.old ++ more.now }
    {
        let end = self.len + more.len();
        // A part of the array itself, whose length is a const parameter, cannot be lent yet.
        let room = &mut self.items[..];
        room[self.len..end].copy_from_slice(more);
        self.len = end;
    }
}
