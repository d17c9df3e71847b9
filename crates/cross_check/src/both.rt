//! A schedule of the library and one of the second implementation, led by the same calls.
use crate::second::faults::{Answer, Fault};
use crate::second::passes::Weights;
use crate::second::schedules::PassList;
use schedule::history::Call;
use schedule::schedules::Schedule;
use std::alloc::Global;

#[derive(Clone, Drop)]
pub struct Both {
    pub schedule: Schedule,
    pub list: PassList,
}

/// A call on both.
#[derive(Drop)]
pub enum Request {
    Pair(u32, u32),
    Triple(u32, u32, u32),
    Step(u32, u32),
    Withdraw(usize),
    Join(Both),
}

impl Both {
    pub fn new(heap: Global) -> Both {
        Both {
            schedule: Schedule::new(),
            list: PassList::new(heap),
        }
    }

    /// Makes the call on both, and gives the library's answer and then the other.
    pub fn make(&mut self, request: &Request) -> (Answer, Answer) {
        let schedule = &mut self.schedule;
        let list = &mut self.list;
        let (library, second) = match request {
            Request::Pair(a, b) => (schedule.add_pair(*a, *b), list.add_pair(*a, *b)),
            Request::Triple(a, b, c) => {
                (schedule.add_triple(*a, *b, *c), list.add_triple(*a, *b, *c))
            }
            Request::Step(p, q) => (schedule.add_step(*p, *q), list.add_step(*p, *q)),
            Request::Withdraw(place) => (schedule.withdraw(*place), list.withdraw(*place)),
            Request::Join(other) => (schedule.join(&other.schedule), list.join(&other.list)),
        };
        (library.map_err(Fault::from), second)
    }

    pub fn agree(&self) -> bool {
        are_same(&self.schedule, &self.list)
    }
}

/// Whether the same passes stand in both, in the same order, and the scales are the same.
pub fn are_same(schedule: &Schedule, list: &PassList) -> bool {
    let passes = schedule.as_slice();
    schedule.len() == list.len()
        && passes.len() == list.len()
        && u128::from(schedule.scale()) == list.scale()
        && passes
            .iter()
            .zip(list.as_slice().iter())
            .all(|(pass, weights)| Weights::from(*pass) == *weights)
}

/// The library's value for a call.
impl From<&Request> for Call {
    fn from(request: &Request) -> Call {
        match request {
            Request::Pair(a, b) => Call::AddPair(*a, *b),
            Request::Triple(a, b, c) => Call::AddTriple(*a, *b, *c),
            Request::Step(p, q) => Call::AddStep(*p, *q),
            Request::Withdraw(place) => Call::Withdraw(*place),
            Request::Join(other) => Call::Join(other.schedule),
        }
    }
}
