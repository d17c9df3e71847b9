//! Whether a table of primes is right, without splitting anything: each is prime, they stand in order, and piled they give
//! the taps of the schedule.
use crate::second::passes::Weights;
use crate::second::taps::Taps;
use std::alloc::AllocError;

/// A triple whose discriminant is a square splits into two pairs; every root is tried.
fn splits(pass: &Weights) -> bool {
    let Weights::Triple(weights) = *pass else {
        return false;
    };
    let [a, b, c] = weights;
    let discriminant = b
        .saturating_mul(b)
        .checked_sub(a.saturating_mul(c).saturating_mul(4));
    (0..1001u64).any(|s| Some(s.saturating_mul(s)) == discriminant)
}

/// Whether weights are reduced, admitted and cannot be split.
pub fn is_prime(pass: &Weights) -> bool {
    pass.reduced() == Ok(*pass) && !splits(pass)
}

fn rank(pass: &Weights) -> (usize, u64, u64, u64) {
    match *pass {
        Weights::Pair(weights) => {
            let [a, b] = weights;
            (2, a, b, 0)
        }
        Weights::Triple(weights) => {
            let [a, b, c] = weights;
            (3, a, b, c)
        }
    }
}

/// Pairs come before triples, then the smaller weights, the first one first.
// Not derived, as the library's order of passes is.
pub fn comes_before(first: &Weights, second: &Weights) -> bool {
    rank(first) < rank(second)
}

/// The taps with a prime piled on, so many times.
pub fn piled(taps: Taps, prime: &Weights, times: u32) -> Result<Taps, AllocError> {
    let one = Taps::of_pass(taps.heap(), prime)?;
    (0..times).try_fold(taps, |taps, _| taps.convolved(&one))
}
