//! Refusals, by their numbers.
use std::alloc::{AllocError, AllocFailed};

/// A refusal's number, and its line for a sheet (0 where there is none).
#[derive(Clone, Copy, PartialEq, Eq)]
pub struct Fault {
    // Compared and printed as they are, 0 for no line: an enum and an Option would only be written out as these again.
    pub number: u8,
    pub line: usize,
}

impl Fault {
    /// No refusal has this number, so where memory fails a difference is seen.
    const OUT_OF_MEMORY: u8 = 0;

    /// A refusal that speaks of no line.
    pub fn plain(number: u8) -> Fault {
        Fault { number, line: 0 }
    }
}

impl From<AllocError> for Fault {
    fn from(_error: AllocError) -> Fault {
        Fault::plain(Fault::OUT_OF_MEMORY)
    }
}

impl<T: Drop> From<AllocFailed<T>> for Fault {
    fn from(_failed: AllocFailed<T>) -> Fault {
        Fault::plain(Fault::OUT_OF_MEMORY)
    }
}

/// What a call answers: a count, or why it refuses.
pub type Answer = Result<usize, Fault>;
