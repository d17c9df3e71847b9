//! A line of a prime table.

use crate::passes::Pass;

/// A prime, and how often it stands.
#[derive(Clone, Copy, PartialEq, Eq, Debug)]
pub struct PrimeCount {
    pub prime: Pass,
    pub count: u32,
}
