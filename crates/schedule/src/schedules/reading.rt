//! What can be read of a schedule.
ghost use Rattle.std.specs.Prelude.{◌≡◌, length};
ghost use Rattle.scale_space.specs.Passes.{product};
ghost use Rattle.schedule.specs.Standing.{Standing};
ghost use Rattle.schedule.specs.Calls.{passes};

use crate::reduction::scale_of;
use crate::schedules::Schedule;
use scale_space::passes::Pass;

impl Schedule {
    /// How many passes stand.
    pub fn len(&self) -> usize
        ensures { result ≡ length (passes self.now) }
    {
        self.list.len()
    }

    /// The passes that stand, in order: at most 24, each proper, and of a scale of at most 2^40.
    #[tactic(auto, using(crate::proofs::Standing::standing))]
    pub fn as_slice(&self) -> &[Pass]
        ensures value { result.now ≡ passes self.now }
        ensures standing { Standing (passes self.now) }
    {
        self.list.as_slice()
    }

    /// The product of the passes' scales.
    pub fn scale(&self) -> u64
        ensures { result ≡ product (passes self.now) }
    {
        // A loop: as a `product` over the iterator it was tried, and the bound of each run of its items stayed open.
        let mut scale = 1;
        for pass in self.as_slice() {
            scale *= scale_of(*pass);
        }
        scale
    }
}
