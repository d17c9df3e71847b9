//! Smoothers: one interface, the kinds behind it, and the call that applies any of them.
#![tactic(auto)]

pub mod apply;
pub mod binomial;
pub mod interface;
pub mod kinds;
pub mod pile;
mod sums;
pub mod tap_lists;
mod weighing;
