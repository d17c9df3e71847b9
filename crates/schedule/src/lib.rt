//! Schedules of smoothing passes: passes in lowest terms, a list of them that can never hold a bad one, the calls that edit
//! it and refuse exactly, and their histories.
#![tactic(auto)]

pub mod history;
pub mod laws;
pub mod pairs;
pub mod reduction;
pub mod schedules;
pub mod singles;
pub mod triples;
