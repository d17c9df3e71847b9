//! How tap lists are made, read and piled.
ghost use Rattle.std.specs.Prelude.{◌≡◌, ◌+◌, ◌*◌, ◌^◌, ◌≤◌, true, [], ◌∷◌, length};
ghost use Rattle.scale_space.specs.Taps.{dot, scale, conv};
ghost use Rattle.smoother.specs.Answers.{weighable};
ghost use Rattle.smoother.specs.TapLists.{shown};
ghost use Rattle.smoother.specs.Piled.{stacked};

use crate::sums::tap;
use crate::tap_lists::TapList;
use fixed_list::FixedList;
use samples::limits::LARGEST_SCALE;
use samples::refusals::Refusal;

/// The longest reach of a smoother.
const LONGEST_REACH: usize = 48;

impl TapList {
    /// The one tap 1.
    pub fn one() -> TapList
        ensures { shown result ≡ 1 ∷ [] }
    {
        TapList::of(&[1])
    }

    /// Two taps.
    pub fn two(a: u32, b: u32) -> TapList
        ensures { shown result ≡ a ∷ b ∷ [] }
    {
        TapList::of(&[a as u64, b as u64])
    }

    /// Three taps.
    pub fn three(a: u32, b: u32, c: u32) -> TapList
        ensures { shown result ≡ a ∷ b ∷ c ∷ [] }
    {
        TapList::of(&[a as u64, b as u64, c as u64])
    }

    fn of(taps: &[u64]) -> TapList
        requires some { 1 ≤ length taps.now }
        requires short { length taps.now ≤ 49 }
        requires light { scale taps.now ≤ 2 ^ 40 }
        ensures { shown result ≡ taps.now }
    {
        let mut list = FixedList::new(0);
        list.extend_from_slice(taps);
        TapList { taps: list }
    }

    /// The taps, in order.
    pub fn as_slice(&self) -> &[u64]
        ensures { result.now ≡ shown self.now }
    {
        self.taps.as_slice()
    }

    /// The sum of the taps.
    pub(crate) fn sum(&self) -> u64
        ensures { result ≡ scale (shown self.now) }
    {
        self.as_slice().iter().sum()
    }

    /// The taps laid on as many samples. The sums fit, since every sample is small at this scale.
    // Apart from the weighing in `levels`, of 32-bit weights: a trait of weights would be longer than these two loops.
    pub(crate) fn dot(&self, samples: &[i64]) -> i64
        requires long { length (shown self.now) ≡ length samples.now }
        requires heavy { 1 ≤ scale (shown self.now) }
        requires small { weighable (scale (shown self.now)) samples.now ≡ true }
        ensures { result ≡ dot (shown self.now) samples.now }
    {
        let mut total = 0;
        for (tap, sample) in self.as_slice().iter().zip(samples) {
            total += *tap as i64 * *sample;
        }
        total
    }

    /// Whether these taps can be piled with others, and if not, why not.
    pub(crate) fn fits(&self, other: &TapList) -> Result<(), Refusal>
        requires { 1 ≤ scale (shown other.now) }
        ensures { result ≡ stacked (shown self.now) (shown other.now) tt }
    {
        if self.sum() > LARGEST_SCALE / other.sum() {
            return Err(Refusal::ScaleTooLarge);
        }
        if (self.taps.len() - 1) + (other.taps.len() - 1) > LONGEST_REACH {
            return Err(Refusal::ReachTooLong);
        }
        Ok(())
    }

    /// These taps piled with others: these first, then the others.
    pub(crate) fn pile(&self, other: &TapList) -> TapList
        requires short { length (shown self.now) + length (shown other.now) ≤ 50 }
        requires light { scale (shown self.now) * scale (shown other.now) ≤ 2 ^ 40 }
        ensures { shown result ≡ conv (shown self.now) (shown other.now) }
    {
        let mut taps = FixedList::new(0);
        for place in 0..self.taps.len() + other.taps.len() - 1 {
            taps.push(tap(self.as_slice(), other.as_slice(), place));
        }
        TapList { taps }
    }
}
