//! The prime table of a schedule. It is held inline, so that nothing about it can fail for want of memory.
ghost use Rattle.std.specs.Prelude.{◌≤◌, length};
ghost use Rattle.primes.specs.Order.{InOrder};
ghost use Rattle.fixed_list.specs.Listed.{listed};
ghost use Rattle.primes.specs.Counts.{counted};

use fixed_list::FixedList;
use scale_space::primes::PrimeCount;

pub mod building;

/// Primes in order, each with how often it stands. At most 24 passes have at most two primes each, so the counts come to 48
/// at most; and no record counts nothing, so there are no more records than that.
#[derive(Clone, Copy, PartialEq)]
pub struct PrimeTable {
    list: FixedList<PrimeCount, 48>,
    ghost ordered: { InOrder (listed list) },
    ghost some: { length (listed list) ≤ counted (listed list) },
    ghost bounded: { counted (listed list) ≤ 48 },
}
