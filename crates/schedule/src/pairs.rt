//! A pair of weights as a type of its own.
ghost use Rattle.std.specs.Prelude.{◌≡◌, Ok, Err, MatchResult};
ghost use Rattle.schedule.specs.Making.{made};
ghost use Rattle.schedule.specs.Kinds.{pair_pass};

use crate::singles::Single;
use samples::refusals::Refusal;
use scale_space::passes::Pass;

/// Two weights: in range, not both 0, and with no common divisor but 1.
pub type Pair = Single<2>;

impl Pair {
    /// The pair of two weights in lowest terms, or a refusal.
    pub fn new(a: u32, b: u32) -> Result<Pair, Refusal>
        ensures { MatchResult result (λ x. made (Pass.Pair a b) ≡ Ok (pair_pass x)) (λ e. made (Pass.Pair a b) ≡ Err e) }
    {
        Single::reduced(Pass::Pair(a, b))
    }
}
