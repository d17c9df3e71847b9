//! Any smoother, laid on every window of the samples.
ghost use Rattle.std.specs.Prelude.{◌≡◌, ◌≤◌, length};
ghost use Rattle.scale_space.specs.Taps.{windows, scale};
ghost use Rattle.scale_space.specs.Levels.{Smooths};
ghost use Rattle.samples.specs.Answers.{written};
ghost use Rattle.smoother.specs.TapLists.{shown};
ghost use Rattle.smoother.specs.Answers.{applied};

use crate::interface::Smoother;
use crate::tap_lists::TapList;
use crate::weighing::all_weighable;
use samples::refusals::Refusal;

/// Lays taps on every window. All samples are checked before the first place is written.
fn lay(taps: &TapList, samples: &[i64], out: &mut [i64]) -> Result<usize, Refusal>
    requires { 1 ≤ scale (shown taps.now) }
    ensures answer { result ≡ applied (shown taps.now) samples.now (length out.old) }
    ensures places { out.new ≡ written result (windows (shown taps.now) samples.now) out.old }
{
    let width = taps.as_slice().len();
    if samples.len() < width {
        return Err(Refusal::TooFewSamples);
    }
    let count = samples.len() - width + 1;
    if out.len() < count {
        return Err(Refusal::BufferTooShort);
    }
    if !all_weighable(samples, taps.sum()) {
        return Err(Refusal::SampleTooLarge);
    }
    // By index, since of what a loop over `iter_mut().zip(..)` writes nothing is known.
    for (i, window) in samples.windows(width).enumerate() {
        out[i] = taps.dot(window);
    }
    Ok(count)
}

/// Applies a smoother to the samples: its taps, laid on every window, are put into the caller's output in order. Answers
/// how many there are; a refusal writes none. The smoother is asked for its taps once, so the cost is that of its taps,
/// whatever its kind. Whatever the level and its scale, what comes out has no more turns, crosses no whole height more
/// often, and stays between the lowest and the highest sample.
pub fn apply<S: Smoother>(s: &S, samples: &[i64], out: &mut [i64]) -> Result<usize, Refusal>
    ensures answer { result ≡ applied (S.taps s.now) samples.now (length out.old) }
    ensures places { out.new ≡ written result (windows (S.taps s.now) samples.now) out.old }
    ensures calm { Smooths (S.taps s.now) }
{
    lay(&s.show(), samples, out)
}
