//! A level rounded to whole heights.
ghost use Rattle.std.specs.Prelude.{◌≡◌, ◌*◌, ◌≤◌, true, map, length, unsigned_abs};
ghost use Rattle.scale_space.specs.Levels.{Level, whole, Calmer};
ghost use Rattle.scale_space.specs.Rounding.{rounded};
ghost use Rattle.samples.specs.Answers.{scale_lawful, rounding, rounding_one, written};

use crate::limits::{LARGEST_HEIGHT, are_within, is_scale};
use crate::refusals::Refusal;

/// The whole height nearest to a numerator over the scale; a half goes upward, so the quotient is the one toward the
/// lower number at both signs.
fn nearest(numerator: i64, scale: u64) -> i64
    requires lawful { scale_lawful scale ≡ true }
    requires small { unsigned_abs numerator ≤ 100000 * scale }
    ensures { result ≡ rounded scale numerator }
{
    let scale = scale as i64;
    (2 * numerator + scale).div_euclid(2 * scale)
}

/// Rounds one numerator over the scale to the nearest whole height, halves upward.
pub fn round_one(numerator: i64, scale: u64) -> Result<i64, Refusal>
    ensures { result ≡ rounding_one numerator scale }
{
    if !is_scale(scale) {
        return Err(Refusal::ScaleOrHeight);
    }
    if numerator.unsigned_abs() > LARGEST_HEIGHT * scale {
        return Err(Refusal::SampleTooLarge);
    }
    Ok(nearest(numerator, scale))
}

/// Rounds numerators over the scale to whole heights, halves upward, into the caller's output. Answers how many there are;
/// a refusal writes none. Whatever the level, its rounding has no more turns, crosses no whole height more often, and stays
/// between the lowest and the highest sample.
pub fn round(numerators: &[i64], scale: u64, out: &mut [i64]) -> Result<usize, Refusal>
    ensures answer { result ≡ rounding numerators.now scale (length out.old) }
    ensures places { out.new ≡ written result (map (rounded scale) numerators.now) out.old }
    ensures calm { (l : Level) → 1 ≤ l.scale → Calmer l (whole l) }
{
    if !is_scale(scale) {
        return Err(Refusal::ScaleOrHeight);
    }
    if numerators.len() > out.len() {
        return Err(Refusal::BufferTooShort);
    }
    if !are_within(numerators, LARGEST_HEIGHT * scale) {
        return Err(Refusal::SampleTooLarge);
    }
    // By index, since of what a loop over `iter_mut().zip(..)` writes nothing is known.
    for (i, numerator) in numerators.iter().enumerate() {
        out[i] = nearest(*numerator, scale);
    }
    Ok(numerators.len())
}
