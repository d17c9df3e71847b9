//! The primes that schedules are made of, in prime tables, and when two schedules do the same to every profile.
#![tactic(auto)]

pub mod comparing;
pub mod laws;
pub mod roots;
mod splitting;
pub mod tables;
