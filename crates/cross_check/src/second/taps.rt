//! Taps: the passes convolved into one list of weights.
use crate::second::passes::Weights;
use crate::second::schedules::PassList;
use std::alloc::{AllocError, Global};

/// A list of taps.
#[derive(Drop)]
pub struct Taps {
    values: Vec<i128>,
}

impl Taps {
    /// The single tap 1, which changes nothing.
    pub fn one(heap: Global) -> Result<Taps, AllocError> {
        let values = vec![in heap; 1]?;
        Ok(Taps { values })
    }

    /// The weights of one pass.
    pub fn of_pass(heap: Global, pass: &Weights) -> Result<Taps, AllocError> {
        let weights = pass.as_slice().iter();
        let values = weights.map(|weight| i128::from(*weight)).collect(heap)?;
        Ok(Taps { values })
    }

    /// The taps of the first `k` passes, convolved.
    pub fn of_first(heap: Global, list: &PassList, k: usize) -> Result<Taps, AllocError> {
        let mut taps = Taps::one(heap)?;
        for pass in list.as_slice().iter().take(k) {
            taps = taps.convolved(&Taps::of_pass(heap, pass)?)?;
        }
        Ok(taps)
    }

    pub fn of(heap: Global, list: &PassList) -> Result<Taps, AllocError> {
        Taps::of_first(heap, list, list.len())
    }

    pub fn heap(&self) -> Global {
        *self.values.allocator()
    }

    pub fn len(&self) -> usize {
        self.values.len()
    }

    pub fn reach(&self) -> usize {
        self.len().saturating_sub(1)
    }

    pub fn sum(&self) -> i128 {
        self.values
            .iter()
            .fold(0, |sum, tap| i128::saturating_add(sum, *tap))
    }

    /// These taps first and then the other ones.
    pub fn convolved(&self, other: &Taps) -> Result<Taps, AllocError> {
        let count = self.len().saturating_add(other.reach());
        let mut values = vec![in self.heap(); 0; count]?;
        for (place, times) in self.values.iter().enumerate() {
            if let Some(back) = values.as_mut_slice().get_mut(place..count) {
                raise(back, other, *times);
            }
        }
        Ok(Taps { values })
    }

    /// These taps, laid on the samples from a place on.
    pub fn laid_at(&self, samples: &[i64], from: usize) -> i128 {
        let window = samples.get(from..samples.len()).unwrap_or(&[]);
        self.values
            .iter()
            .zip(window.iter())
            .fold(0, |sum, (tap, sample)| {
                i128::saturating_add(sum, tap.saturating_mul(i128::from(*sample)))
            })
    }

    /// Whether two lists of taps are the same smoothing: the same fractions tap / sum, cross-multiplied.
    pub fn agree_with(&self, other: &Taps) -> bool {
        let mine = self.sum();
        let theirs = other.sum();
        self.len() == other.len()
            && self
                .values
                .iter()
                .zip(other.values.iter())
                .all(|(a, b)| a.checked_mul(theirs) == b.checked_mul(mine))
    }
}

/// Adds the taps, so many times each, to the front of the values.
fn raise(values: &mut [i128], taps: &Taps, times: i128) {
    for (value, tap) in values.iter_mut().zip(taps.values.iter()) {
        *value = value.saturating_add(tap.saturating_mul(times));
    }
}
