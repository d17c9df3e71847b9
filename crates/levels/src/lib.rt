//! Levels, drawn exactly and in place.
#![tactic(auto)]

pub mod draw;
pub mod walks;
