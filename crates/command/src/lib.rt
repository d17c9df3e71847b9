//! The command on bytes: what is read, and what is to be printed.
#![tactic(auto)]

pub mod answering;
mod asking;
mod parting;
