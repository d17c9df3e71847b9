//! Smoothers whose taps are binomial coefficients.
ghost use Rattle.std.specs.Prelude.{◌≡◌, ◌<◌, ◌≤◌, Ok, Err};
ghost use Rattle.samples.specs.declared.refusals.Refusal.TheVariants.{OutOfRange};
ghost use Rattle.smoother.specs.Rows.{row, pairs};
ghost use Rattle.std.proofs.Common.{arith};
ghost use Rattle.smoother.specs.Row.{row_length, row_heavy, row_light, row_diminishing};

use crate::interface::Smoother;
use crate::tap_lists::TapList;
use samples::refusals::Refusal;

const HIGHEST_ORDER: u32 = 40;

/// The row of an order of Pascal's triangle, laid on neighbouring samples.
#[derive(Clone, Copy)]
pub struct Binomial {
    order: u32,
    ghost low: { order ≤ 40 },
}

impl Binomial {
    /// The smoother of an order from 0 to 40. Its taps are the pair of the weights 1 and 1, piled as often as the order says.
    pub fn new(order: u32) -> Result<Binomial, Refusal>
        ensures answer { elim result [ Ok b ↦ (b.order ≡ order) × (order ≤ 40) | Err e ↦ (e ≡ OutOfRange) × (40 < order) ] }
        ensures taps { row order ≡ pairs order }
    {
        if order > HIGHEST_ORDER {
            return Err(Refusal::OutOfRange);
        }
        Ok(Binomial { order })
    }
}

impl Smoother for Binomial {
    ghost taps = { λ b. row b.order };

    ghost some = { λ s. omega (arith, row_length s.order) };

    ghost short = { λ s. omega (arith, row_length s.order, s.low) };

    ghost heavy = { λ s. row_heavy s.order };

    ghost light = { λ s. row_light s.order s.low };

    ghost diminishing = { λ s. row_diminishing s.order };

    fn show(&self) -> TapList {
        let pair = TapList::two(1, 1);
        let mut taps = TapList::one();
        for _ in 0..self.order {
            taps = pair.pile(&taps);
        }
        taps
    }
}
