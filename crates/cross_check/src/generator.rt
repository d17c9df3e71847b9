//! Numbers that look random and are the same in every run.
use std::alloc::Global;

/// A counter whose values are scrambled (SplitMix64), and the memory for what is made of them.
#[derive(Drop)]
pub struct Generator {
    pub heap: Global,
    state: u64,
}

impl Generator {
    pub fn new(heap: Global, seed: u64) -> Generator {
        Generator { heap, state: seed }
    }

    fn next(&mut self) -> u64 {
        self.state = self.state.wrapping_add(0x9e37_79b9_7f4a_7c15);
        let a = self.state;
        let b = (a ^ (a >> 30)).wrapping_mul(0xbf58_476d_1ce4_e5b9);
        let c = (b ^ (b >> 27)).wrapping_mul(0x94d0_49bb_1331_11eb);
        c ^ (c >> 31)
    }

    /// A number from 0 to below `end`, and 0 where `end` is 0.
    pub fn below(&mut self, end: u64) -> u64 {
        self.next().checked_rem(end).unwrap_or(0)
    }

    /// A number from 0 to `most`.
    pub fn up_to(&mut self, most: u32) -> u32 {
        u32::try_from(self.below(u64::from(most) + 1)).unwrap_or(most)
    }

    /// A place from 0 to below `end`, and 0 where `end` is 0.
    pub fn place(&mut self, end: usize) -> usize {
        self.below(end as u64) as usize
    }

    /// True once in so many times.
    pub fn once_in(&mut self, times: u64) -> bool {
        self.below(times) == 0
    }

    /// One of the items, or `otherwise` where there is none.
    pub fn pick<T: Copy>(&mut self, items: &[T], otherwise: T) -> T {
        let place = self.place(items.len());
        items.get(place).copied().unwrap_or(otherwise)
    }

    /// A number from `low` to `high`.
    pub fn between(&mut self, low: i64, high: i64) -> i64 {
        let width = high.abs_diff(low).saturating_add(1);
        low.wrapping_add_unsigned(self.below(width))
    }

    /// A number from `-most` to `most`.
    pub fn around(&mut self, most: i64) -> i64 {
        self.between(most.saturating_neg(), most)
    }

    /// Puts what is made in the place of one of the items, if there is any.
    pub fn replace_one<T: Copy, F: FnOnce(&mut Generator) -> T>(&mut self, items: &mut [T], make: F)
        requires { F.IsAlwaysCallable make }
    {
        let place = self.place(items.len());
        if let Some(item) = items.get_mut(place) {
            *item = make(self);
        }
    }
}
