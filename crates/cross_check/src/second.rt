//! The second implementation: by other means than the library, in wide integers, and never in a hurry.

pub mod drawing;
pub mod faults;
pub mod finding;
pub mod level_listing;
pub mod limits;
pub mod passes;
pub mod prime_tables;
pub mod reading;
pub mod rounding;
pub mod schedules;
pub mod taps;
pub mod whole_command;
pub mod writing;
