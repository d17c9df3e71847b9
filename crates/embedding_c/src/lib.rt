//! The archive for tools in C and Rust: the calls of `embedding`, exported under C names. A slice is passed as a pointer and then
//! a length. Each call does what its namesake there does, and repeats what that promises,
//! since only a static library exports C names, and crates are built on plain ones.
#![tactic(auto)]

mod command_calls;
mod level_calls;
mod profile_calls;
mod schedule_calls;
mod turn_calls;
