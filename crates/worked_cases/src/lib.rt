//! The worked cases: small examples that a reader can do by hand, as facts of the definitions.
#![tactic(auto)]

ghost use Rattle.worked_cases.specs.Cases.{WorkedCases};

/// The table of worked cases, as one theorem.
pub fn worked_cases()
    ensures { WorkedCases }
{}
