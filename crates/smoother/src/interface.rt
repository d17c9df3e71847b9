//! What every smoother is.
ghost use Rattle.std.specs.Prelude.{◌≡◌, ℕ, ◌+◌, ◌^◌, ◌≤◌, List, length};
ghost use Rattle.scale_space.specs.Taps.{scale};
ghost use Rattle.scale_space.specs.Levels.{Diminishing};
ghost use Rattle.smoother.specs.TapLists.{shown};
ghost use Rattle.smoother.specs.Answers.{weighing};

use crate::tap_lists::TapList;
use crate::weighing::weigh;
use samples::refusals::Refusal;

/// A smoother shows its taps, and all else follows from them. A kind writes `show` alone: were it to weigh by asking the
/// smoothers below, a deep pile would ask them over and over.
pub trait Smoother {
    /// What the smoother means: its taps, first tap first.
    ghost taps: { Self → List ℕ };

    /// Shows the taps.
    fn show(&self) -> TapList
        ensures { shown result ≡ taps self.now };

    /// The number of taps less 1.
    fn reach(&self) -> usize
        ensures { result + 1 ≡ length (taps self.now) }
    {
        self.show().as_slice().len() - 1
    }

    /// The sum of the taps.
    fn scale(&self) -> u64
        ensures { result ≡ scale (taps self.now) }
    {
        self.show().sum()
    }

    /// The taps laid on a window of reach + 1 samples.
    fn weigh(&self, samples: &[i64]) -> Result<i64, Refusal>
        ensures { result ≡ weighing (taps self.now) samples.now }
    {
        weigh(&self.show(), samples)
    }

    ghost some: { (s : Self) → 1 ≤ length (taps s) };

    ghost short: { (s : Self) → length (taps s) ≤ 49 };

    ghost heavy: { (s : Self) → 1 ≤ scale (taps s) };

    ghost light: { (s : Self) → scale (taps s) ≤ 2 ^ 40 };

    ghost diminishing: { (s : Self) → Diminishing (taps s) };
}
