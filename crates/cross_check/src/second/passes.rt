//! Passes: reduction by trial division, and admission.
use crate::second::faults::Fault;

const MOST_WEIGHT: u64 = 1000;

/// The weights of a pass.
#[derive(Clone, Copy, PartialEq, Eq)]
pub enum Weights {
    Pair([u64; 2]),
    Triple([u64; 3]),
}

impl Weights {
    pub fn pair(a: u32, b: u32) -> Weights {
        Weights::Pair([a, b].map(u64::from))
    }

    pub fn triple(a: u32, b: u32, c: u32) -> Weights {
        Weights::Triple([a, b, c].map(u64::from))
    }

    pub fn as_slice(&self) -> &[u64] {
        match self {
            Weights::Pair(weights) => weights,
            Weights::Triple(weights) => weights,
        }
    }

    pub fn sum(&self) -> u64 {
        self.as_slice()
            .iter()
            .fold(0, |sum, weight| sum.saturating_add(*weight))
    }

    fn has_large(&self) -> bool {
        self.as_slice().iter().any(|weight| *weight > MOST_WEIGHT)
    }

    fn is_admitted(&self) -> bool {
        match *self {
            Weights::Pair(_) => true,
            Weights::Triple(weights) => {
                let [a, b, c] = weights;
                b.saturating_mul(b) >= a.saturating_mul(c).saturating_mul(4)
            }
        }
    }

    fn all_divide_by(&self, d: u64) -> bool {
        self.as_slice()
            .iter()
            .all(|weight| weight.checked_rem(d) == Some(0))
    }

    fn divided_by(&self, d: u64) -> Weights {
        match *self {
            Weights::Pair(weights) => Weights::Pair(weights.map(|weight| part(weight, d))),
            Weights::Triple(weights) => Weights::Triple(weights.map(|weight| part(weight, d))),
        }
    }

    /// Divides by the largest number that divides all, found by trying each.
    fn in_lowest_terms(&self) -> Weights {
        let mut numbers = (1..=MOST_WEIGHT).rev();
        let largest = numbers.find(|d| self.all_divide_by(*d)).unwrap_or(1);
        self.divided_by(largest)
    }

    /// The reduced weights, or the first reason against them.
    pub fn reduced(&self) -> Result<Weights, Fault> {
        if self.has_large() {
            return Err(Fault::plain(1));
        }
        if self.sum() == 0 {
            return Err(Fault::plain(2));
        }
        if !self.is_admitted() {
            return Err(Fault::plain(3));
        }
        Ok(self.in_lowest_terms())
    }
}

fn part(weight: u64, d: u64) -> u64 {
    weight.checked_div(d).unwrap_or(0)
}

/// The weights of the diffusion step p/q, reduced, or the first reason against them.
pub fn reduced_step(p: u32, q: u32) -> Result<Weights, Fault> {
    if q < 1 || q > 500 || p > q {
        return Err(Fault::plain(1));
    }
    Weights::triple(p, 2 * (q - p), p).reduced()
}
