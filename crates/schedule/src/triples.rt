//! A triple of weights as a type of its own.
ghost use Rattle.std.specs.Prelude.{◌≡◌, Ok, Err, MatchResult};
ghost use Rattle.schedule.specs.Making.{made};
ghost use Rattle.schedule.specs.Kinds.{triple_pass};

use crate::singles::Single;
use samples::refusals::Refusal;
use scale_space::passes::Pass;

/// Three weights: in range, not all 0, with no common divisor but 1, and admitted.
pub type Triple = Single<3>;

impl Triple {
    /// The triple of three weights in lowest terms, or a refusal.
    pub fn new(a: u32, b: u32, c: u32) -> Result<Triple, Refusal>
        ensures { MatchResult result (λ x. made (Pass.Triple a b c) ≡ Ok (triple_pass x)) (λ e. made (Pass.Triple a b c) ≡ Err e) }
    {
        Single::reduced(Pass::Triple(a, b, c))
    }
}
