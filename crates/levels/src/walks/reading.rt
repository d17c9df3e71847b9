//! The level that a walk has come to, read.
ghost use Rattle.std.specs.Prelude.{◌≡◌, ◌≤◌, true, length};
ghost use Rattle.samples.specs.Answers.{scale_lawful, heights_fit};
ghost use Rattle.levels.specs.Walks.{come_to};

use crate::walks::Walk;

impl Walk {
    /// The level that it has come to.
    pub fn level(&self) -> usize
        ensures { result ≡ self.now.level }
    {
        self.level
    }

    /// What the level's numerators are to be divided by.
    pub fn scale(&self) -> u64
        ensures value { result ≡ (come_to self.now).scale }
        ensures lawful { scale_lawful result ≡ true }
    {
        self.drawn.scale
    }

    /// The level's numerators.
    pub fn numerators(&self) -> &[i64]
        ensures value { result.now ≡ (come_to self.now).numerators }
        ensures fit { heights_fit (come_to self.now).scale result.now ≡ true }
        ensures some { 1 ≤ length result.now }
        ensures short { length result.now ≤ 2048 }
    {
        &self.samples[0..self.drawn.length]
    }
}
