//! The listing of a level's turns, and the line that tells a refusal.
#![tactic(auto)]

mod fields;
mod lines;
pub mod listings;
pub mod refusal_lines;
