//! The calls as values, and what stands after a history of them.
ghost use Rattle.std.specs.Prelude.{◌≡◌};
ghost use Rattle.schedule.specs.Calls.{passes, Ends};
ghost use Rattle.schedule.specs.History.{outcome, replayed, Told, Lawful};

use crate::schedules::Schedule;
use samples::refusals::Refusal;

/// A call on a schedule, as a value. It is no closure, since a history is data: stored, printed and replayed.
#[derive(Clone, Copy)]
pub enum Call {
    AddPair(u32, u32),
    AddTriple(u32, u32, u32),
    AddStep(u32, u32),
    Withdraw(usize),
    Join(Schedule),
}

impl Schedule {
    /// Makes one call. An accepted call answers how many passes then stand, and a refused one changes nothing.
    #[tactic(auto, using(crate::proofs::Runs::told))]
    pub fn make(&mut self, call: &Call) -> Result<usize, Refusal>
        ensures ends { Ends (outcome (passes self.old) call.now) result (passes self.new) }
        ensures told { Told (passes self.old) result (passes self.new) }
    {
        self.dispatch(call)
    }

    /// The call by its kind. What all kinds have in common is said of `make`.
    fn dispatch(&mut self, call: &Call) -> Result<usize, Refusal>
        ensures { Ends (outcome (passes self.old) call.now) result (passes self.new) }
    {
        match call {
            Call::AddPair(a, b) => self.add_pair(*a, *b),
            Call::AddTriple(a, b, c) => self.add_triple(*a, *b, *c),
            Call::AddStep(p, q) => self.add_step(*p, *q),
            Call::Withdraw(place) => self.withdraw(*place),
            Call::Join(second) => self.join(second),
        }
    }
}

/// What stands after a whole history of calls on an empty schedule, refused ones too.
pub fn replay(history: &[Call]) -> Schedule
    ensures is { passes result ≡ replayed history.now }
    ensures lawful { Lawful history.now }
{
    let mut schedule = Schedule::new();
    for call in history {
        let _ = schedule.make(call);
    }
    schedule
}
