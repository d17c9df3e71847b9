//! A triple that is made of two pairs, taken apart.
ghost use Rattle.std.specs.Prelude.{◌≡◌, ◌+◌, ◌*◌, ◌<◌, ◌≤◌, [], ◌∷◌};
ghost use Rattle.scale_space.specs.Divisors.{Reduced};
ghost use Rattle.scale_space.specs.Passes.{weights, lowest};
ghost use Rattle.scale_space.specs.Primes.{halves, Factored};

use scale_space::passes::Pass;
use schedule::reduction::gcd;

/// The pair of two weights in lowest terms.
// The same stands in schedule, and is private there: it asks for weights that are not all 0, as no public call may.
#[tactic(auto, using(scale_space::proofs::Divisors::common_some), unfolding(scale_space::specs::Taps::scale))]
fn reduced_pair(a: u32, b: u32) -> Pass
    requires { 0 < a + b }
    ensures { result ≡ lowest (Pass.Pair a b) }
{
    let g = gcd(a, b);
    Pass::Pair(a / g, b / g)
}

/// The two pairs of a triple whose b² - 4ac is s². Piled they give the triple back.
#[tactic(auto, using(crate::proofs::Halves::end_some))]
pub(crate) fn split(a: u32, b: u32, c: u32, s: u32) -> (Pass, Pass)
    requires small { (b ≤ 1000) × (c ≤ 1000) }
    requires reduced { Reduced (a ∷ b ∷ c ∷ []) }
    requires square { s * s + 4 * (a * c) ≡ b * b }
    ensures is { (result.0 ∷ result.1 ∷ []) ≡ halves a b c s }
    ensures piled { Factored (result.0 ∷ result.1 ∷ []) (weights (Pass.Triple a b c)) }
{
    if c == 0 {
        (Pass::Pair(1, 0), reduced_pair(a, b))
    } else {
        let less = b - s;
        let more = b + s;
        (reduced_pair(less, 2 * c), reduced_pair(more, 2 * c))
    }
}
