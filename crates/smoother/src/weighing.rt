//! Taps laid on one window.
ghost use Rattle.std.specs.Prelude.{◌≡◌, ◌≤◌};
ghost use Rattle.scale_space.specs.Taps.{scale as scale_of};
ghost use Rattle.smoother.specs.TapLists.{shown};
ghost use Rattle.smoother.specs.Answers.{weighable, weighing};

use crate::tap_lists::TapList;
use samples::limits::are_within;
use samples::refusals::Refusal;

/// The largest size of a sample times the scale.
const LARGEST_WEIGHT: u64 = 1 << 57;

/// Whether every sample is small enough at this scale.
pub fn all_weighable(samples: &[i64], scale: u64) -> bool
    requires { 1 ≤ scale }
    ensures { result ≡ weighable scale samples.now }
{
    are_within(samples, LARGEST_WEIGHT / scale)
}

/// The taps laid on a window of as many samples.
pub fn weigh(taps: &TapList, samples: &[i64]) -> Result<i64, Refusal>
    requires { 1 ≤ scale_of (shown taps.now) }
    ensures { result ≡ weighing (shown taps.now) samples.now }
{
    if samples.len() != taps.as_slice().len() {
        return Err(Refusal::WindowLength);
    }
    if !all_weighable(samples, taps.sum()) {
        return Err(Refusal::SampleTooLarge);
    }
    Ok(taps.dot(samples))
}
