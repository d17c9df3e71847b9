//! Sheets: profiles and schedules as text, read and written. A sheet is a line of names, then lines of values in that
//! order, each ended by byte 10.
#![tactic(auto)]

pub mod decimals;
pub mod faults;
pub mod limits;
mod lines;
pub mod profiles;
pub mod schedule_sheets;
mod tokens;
pub mod writing;
