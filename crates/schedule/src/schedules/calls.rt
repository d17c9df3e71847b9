//! The calls that edit a schedule.
ghost use Rattle.std.specs.Prelude.{◌≡◌, true, [], Ok};
ghost use Rattle.schedule.specs.Tests.{proper};
ghost use Rattle.schedule.specs.Making.{made, step_made};
ghost use Rattle.schedule.specs.Calls.{passes, Ends, added, withdrawn, joined_by};

use crate::reduction::{reduce, reduce_step, scale_of};
use crate::schedules::{MOST_PASSES, Schedule};
use fixed_list::FixedList;
use samples::limits::LARGEST_SCALE;
use samples::refusals::Refusal;
use scale_space::passes::Pass;

impl Schedule {
    /// No pass at all.
    pub fn new() -> Schedule
        ensures { passes result ≡ [] }
    {
        Schedule {
            list: FixedList::new(Pass::Pair(1, 0)),
        }
    }

    /// Puts a proper pass at the end.
    fn push(&mut self, pass: Pass) -> Result<usize, Refusal>
        requires { proper pass ≡ true }
        ensures { Ends (added (passes self.old) (Ok pass)) result (passes self.new) }
    {
        if self.list.len() >= MOST_PASSES {
            return Err(Refusal::TooManyPasses);
        }
        if self.scale() * scale_of(pass) > LARGEST_SCALE {
            return Err(Refusal::ScaleTooLarge);
        }
        self.list.push(pass);
        Ok(self.list.len())
    }

    /// Adds a pass, in lowest terms.
    pub fn add(&mut self, pass: Pass) -> Result<usize, Refusal>
        ensures { Ends (added (passes self.old) (made pass)) result (passes self.new) }
    {
        self.push(reduce(pass)?)
    }

    /// Adds a pair, in lowest terms.
    pub fn add_pair(&mut self, a: u32, b: u32) -> Result<usize, Refusal>
        ensures { Ends (added (passes self.old) (made (Pass.Pair a b))) result (passes self.new) }
    {
        self.add(Pass::Pair(a, b))
    }

    /// Adds a triple, in lowest terms.
    pub fn add_triple(&mut self, a: u32, b: u32, c: u32) -> Result<usize, Refusal>
        ensures { Ends (added (passes self.old) (made (Pass.Triple a b c))) result (passes self.new) }
    {
        self.add(Pass::Triple(a, b, c))
    }

    /// Adds the diffusion step p/q, as a triple in lowest terms.
    pub fn add_step(&mut self, p: u32, q: u32) -> Result<usize, Refusal>
        ensures { Ends (added (passes self.old) (step_made p q)) result (passes self.new) }
    {
        self.push(reduce_step(p, q)?)
    }

    /// Takes out the pass at a place, and closes up.
    pub fn withdraw(&mut self, place: usize) -> Result<usize, Refusal>
        ensures { Ends (withdrawn (passes self.old) place) result (passes self.new) }
    {
        if place >= self.list.len() {
            return Err(Refusal::NoSuchPlace);
        }
        self.list.remove(place);
        Ok(self.list.len())
    }

    /// Puts the passes of a second schedule at the end, all or none.
    pub fn join(&mut self, second: &Schedule) -> Result<usize, Refusal>
        ensures { Ends (joined_by (passes self.old) (passes second.now)) result (passes self.new) }
    {
        if self.list.len() + second.list.len() > MOST_PASSES {
            return Err(Refusal::TooManyPasses);
        }
        if self.scale() as u128 * second.scale() as u128 > LARGEST_SCALE as u128 {
            return Err(Refusal::ScaleTooLarge);
        }
        self.list.extend_from_slice(second.list.as_slice());
        Ok(self.list.len())
    }
}
