//! The mathematics of discrete smoothing on lists of whole numbers: windows of taps, changes of sign, turns and
//! crossings, levels, primes. The definitions stand in specs/ and the theorems in proofs/; the code here is the few
//! plain types that both sides speak of, and small functions whose contracts carry the theorems.
#![tactic(auto)]

pub mod crossings;
pub mod laws;
pub mod passes;
pub mod primes;
pub mod turns;
