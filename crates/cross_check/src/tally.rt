//! Counting agreements, and keeping the first difference of each kind.
use crate::second::faults::{Answer, Fault};
use std::alloc::{AllocError, Global};

/// The first input on which the two implementations differ.
#[derive(Clone, Copy)]
pub struct Difference {
    pub input: u64,
    pub library: Answer,
    pub second: Answer,
}

/// The comparisons of one kind.
#[derive(Drop)]
pub struct Tally {
    pub name: String,
    pub inputs: u64,
    pub agreeing: u64,
    /// How many of those agreeing are such as `word` says.
    pub counted: u64,
    pub word: String,
    /// The refusals that were met: a flag for each number, so that hearing needs no memory.
    pub met: [bool; 32],
    pub first: Option<Difference>,
}

impl Tally {
    /// A tally that counts refusals.
    pub fn new(heap: Global, name: &str) -> Result<Tally, AllocError> {
        Tally::counting(heap, name, "refusals")
    }

    /// A tally of a kind that never refuses, which counts something else.
    pub fn counting(heap: Global, name: &str, word: &str) -> Result<Tally, AllocError> {
        Ok(Tally {
            name: String::from_str(heap, name)?,
            inputs: 0,
            agreeing: 0,
            counted: 0,
            word: String::from_str(heap, word)?,
            met: [false; 32],
            first: None,
        })
    }

    // `same` stands beside the answers: what else the calls leave behind, a schedule or a table, is no part of either answer.
    /// Takes the two answers to one input, and whether all else that the calls leave behind is the same.
    pub fn hear(&mut self, library: Answer, second: Answer, same: bool) {
        let refuses = library.is_err();
        self.hear_counting(library, second, same, refuses);
    }

    /// Takes two answers of another kind, and what is counted of each. All of them must be the same.
    pub fn hear_values<T: Copy + PartialEq, F: Fn(T) -> usize>(
        &mut self,
        library: Result<T, Fault>,
        second: Result<T, Fault>,
        count: F,
    )
        requires { F.IsAlwaysCallable count }
    {
        let same = library.ok() == second.ok();
        self.hear(library.map(&count), second.map(&count), same);
    }

    // The counts may not overflow, and no contract bounds the inputs: so they saturate.
    pub fn hear_counting(&mut self, library: Answer, second: Answer, same: bool, counts: bool) {
        self.inputs = self.inputs.saturating_add(1);
        if same && library == second {
            self.agreeing = self.agreeing.saturating_add(1);
            self.counted = self.counted.saturating_add(u64::from(counts));
            self.meet(library);
        } else if self.first.is_none() {
            self.first = Some(Difference {
                input: self.inputs,
                library,
                second,
            });
        }
    }

    fn meet(&mut self, answer: Answer) {
        if let Err(fault) = answer {
            if let Some(met) = self.met.get_mut(usize::from(fault.number)) {
                *met = true;
            }
        }
    }
}
