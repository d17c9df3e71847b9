//! Schedules as plain lists of passes.
use crate::second::faults::{Answer, Fault};
use crate::second::limits::MOST_SCALE;
use crate::second::passes::{Weights, reduced_step};
use std::alloc::Global;

const MOST_PASSES: usize = 24;

#[derive(Clone, Drop)]
pub struct PassList {
    passes: Vec<Weights>,
}

impl PassList {
    pub fn new(heap: Global) -> PassList {
        PassList {
            passes: Vec::new(heap),
        }
    }

    pub fn len(&self) -> usize {
        self.passes.len()
    }

    pub fn as_slice(&self) -> &[Weights] {
        self.passes.as_slice()
    }

    pub fn scale(&self) -> u128 {
        scale_of(self.as_slice())
    }

    /// Puts the passes at the end, all or none.
    fn put_all(&mut self, more: &[Weights]) -> Answer {
        if self.len().saturating_add(more.len()) > MOST_PASSES {
            return Err(Fault::plain(5));
        }
        if self.scale().saturating_mul(scale_of(more)) > u128::from(MOST_SCALE) {
            return Err(Fault::plain(6));
        }
        self.passes.extend_from_slice(more)?;
        Ok(self.len())
    }

    pub fn add_pair(&mut self, a: u32, b: u32) -> Answer {
        self.put_all(&[Weights::pair(a, b).reduced()?])
    }

    pub fn add_triple(&mut self, a: u32, b: u32, c: u32) -> Answer {
        self.put_all(&[Weights::triple(a, b, c).reduced()?])
    }

    pub fn add_step(&mut self, p: u32, q: u32) -> Answer {
        self.put_all(&[reduced_step(p, q)?])
    }

    pub fn withdraw(&mut self, place: usize) -> Answer {
        if place >= self.passes.len() {
            return Err(Fault::plain(4));
        }
        self.passes.remove(place);
        Ok(self.len())
    }

    pub fn join(&mut self, second: &PassList) -> Answer {
        self.put_all(second.as_slice())
    }
}

fn scale_of(passes: &[Weights]) -> u128 {
    passes.iter().fold(1, |scale, pass| {
        u128::saturating_mul(scale, u128::from(pass.sum()))
    })
}
