//! The library for tools in C and Rust: calls on numbers and byte slices, which `embedding_c` exports under C names. No call asks
//! anything of its caller beyond its types, allocates, or writes a buffer where it refuses.
#![tactic(auto)]

pub mod command_calls;
pub mod level_calls;
pub mod profile_calls;
pub mod replies;
pub mod schedule_calls;
pub mod turn_calls;
