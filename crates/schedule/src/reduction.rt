//! Weights in lowest terms, and what keeps a pass out.
ghost use Rattle.std.specs.Prelude.{◌≡◌, ◌*◌, ◌<◌, ◌≤◌, true, [], ◌∷◌, IfOk, nat_le};
ghost use Rattle.scale_space.specs.Taps.{scale};
ghost use Rattle.scale_space.specs.Divisors.{common, Greatest};
ghost use Rattle.scale_space.specs.Passes.{weights, admitted, lowest};
ghost use Rattle.schedule.specs.Tests.{in_range, proper};
ghost use Rattle.schedule.specs.Making.{made, LosesNothing, step_pass, step_made};

use samples::refusals::Refusal;
use scale_space::passes::Pass;

/// The largest weight.
const LARGEST_WEIGHT: u32 = 1000;

/// The largest denominator of a diffusion step.
const LARGEST_DENOMINATOR: u32 = 500;

/// The greatest common divisor of two numbers.
pub fn gcd(a: u32, b: u32) -> u32
    ensures greatest { Greatest (a ∷ b ∷ []) result }
    ensures is { result ≡ common (a ∷ b ∷ []) }
{
    if b == 0 { a } else { gcd(b, a % b) }
}

/// The greatest common divisor of three numbers.
pub fn gcd3(a: u32, b: u32, c: u32) -> u32
    ensures greatest { Greatest (a ∷ b ∷ c ∷ []) result }
    ensures is { result ≡ common (a ∷ b ∷ c ∷ []) }
{
    gcd(a, gcd(b, c))
}

// Here and below each kind names its weights: as one list they would first have to be gathered, and to be reduced be put back.

/// The sum of a pass's weights.
#[tactic(auto, unfolding(scale_space::specs::Taps::scale))]
pub fn scale_of(pass: Pass) -> u64
    ensures { result ≡ scale (weights pass) }
{
    match pass {
        Pass::Pair(a, b) => a as u64 + b as u64,
        Pass::Triple(a, b, c) => a as u64 + b as u64 + c as u64,
    }
}

/// Whether no weight is too large.
fn is_in_range(pass: Pass) -> bool
    ensures { result ≡ in_range (weights pass) }
{
    match pass {
        Pass::Pair(a, b) => a <= LARGEST_WEIGHT && b <= LARGEST_WEIGHT,
        Pass::Triple(a, b, c) => {
            a <= LARGEST_WEIGHT && b <= LARGEST_WEIGHT && c <= LARGEST_WEIGHT
        }
    }
}

/// The pass with its weights divided by their greatest common divisor.
#[tactic(auto, using(scale_space::proofs::Divisors::common_some))]
fn in_lowest_terms(pass: Pass) -> Pass
    requires { 0 < scale (weights pass) }
    ensures { result ≡ lowest pass }
{
    match pass {
        Pass::Pair(a, b) => {
            let g = gcd(a, b);
            Pass::Pair(a / g, b / g)
        }
        Pass::Triple(a, b, c) => {
            let g = gcd3(a, b, c);
            Pass::Triple(a / g, b / g, c / g)
        }
    }
}

/// The pass that weights make: in lowest terms, or refused where a weight is out of range, where all are 0, and where a
/// triple is not admitted, in that order.
#[tactic(auto, using(crate::proofs::Lowest::made_whole))]
pub fn reduce(pass: Pass) -> Result<Pass, Refusal>
    ensures is { result ≡ made pass }
    ensures proper { IfOk result (λ p. proper p ≡ true) }
    ensures whole { IfOk result (λ p. LosesNothing pass p) }
{
    if !is_in_range(pass) {
        return Err(Refusal::OutOfRange);
    }
    if scale_of(pass) == 0 {
        return Err(Refusal::AllZero);
    }
    if !pass.is_admitted() {
        return Err(Refusal::NotAdmitted);
    }
    Ok(in_lowest_terms(pass))
}

/// The pass of the diffusion step p/q, which is the triple (p, 2q - 2p, p). That triple is admitted exactly when 2p is at
/// most q, so the step needs no test of its own.
#[tactic(auto, using(crate::proofs::Steps::step_is, crate::proofs::Steps::step_test))]
pub fn reduce_step(p: u32, q: u32) -> Result<Pass, Refusal>
    ensures is { result ≡ step_made p q }
    ensures proper { IfOk result (λ x. proper x ≡ true) }
    ensures whole { IfOk result (λ x. LosesNothing (step_pass p q) x) }
    ensures test { p ≤ q → admitted (step_pass p q) ≡ nat_le (2 * p) q }
{
    if !(1..=LARGEST_DENOMINATOR).contains(&q) || p > q {
        return Err(Refusal::OutOfRange);
    }
    reduce(Pass::Triple(p, 2 * q - 2 * p, p))
}
