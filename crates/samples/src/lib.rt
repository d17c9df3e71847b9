//! Calls on the samples of one level: its turns, its crossings of a height, and its rounding to whole heights; and the
//! refusals of the whole library.
#![tactic(auto)]

pub mod crossings;
pub mod finder;
pub mod limits;
pub mod refusals;
pub mod rounding;
pub mod turns;
