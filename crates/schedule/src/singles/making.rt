//! How a single pass is made.
ghost use Rattle.std.specs.Prelude.{◌≡◌, Ok, Err, MatchResult, length};
ghost use Rattle.scale_space.specs.Passes.{weights, Proper};
ghost use Rattle.schedule.specs.Making.{made};
ghost use Rattle.schedule.specs.Kinds.{single_pass};

use crate::reduction::reduce;
use crate::singles::Single;
use samples::refusals::Refusal;
use scale_space::passes::Pass;

impl<const N: usize> Single<N> {
    /// The pass in lowest terms, or a refusal.
    pub(crate) fn reduced(pass: Pass) -> Result<Self, Refusal>
        requires { length (weights pass) ≡ N }
        ensures { MatchResult result (λ x. made pass ≡ Ok (single_pass x)) (λ e. made pass ≡ Err e) }
    {
        Ok(Single {
            pass: reduce(pass)?,
        })
    }

    /// The pass.
    pub fn pass(&self) -> Pass
        ensures is { result ≡ single_pass self.now }
        ensures proper { Proper result }
        ensures long { length (weights result) ≡ N }
    {
        self.pass
    }
}
