//! One smoother after another.
ghost use Rattle.std.specs.Prelude.{◌≡◌, IfOk};
ghost use Rattle.scale_space.specs.Taps.{conv};
ghost use Rattle.smoother.specs.Piled.{piled, stacked};
ghost use Rattle.smoother.specs.Limits.{piled_length, piled_scale, piled_diminishing};

use crate::interface::Smoother;
use crate::tap_lists::TapList;
use samples::refusals::Refusal;

/// Two smoothers, the first applied first. Piles may themselves be piled.
#[derive(Drop)]
pub struct Pile<A, B> {
    first: A,
    second: B,
}

impl<A: Smoother + Drop, B: Smoother + Drop> Pile<A, B> {
    /// Piles two smoothers, unless the scale or the reach would pass its limit.
    pub fn new(first: A, second: B) -> Result<Pile<A, B>, Refusal>
        ensures answer { result ≡ stacked (A.Smoother.taps first) (B.Smoother.taps second) (record { first = first; second = second }) }
        ensures taps { IfOk result (λ p. piled (A.Smoother.taps p.first) (B.Smoother.taps p.second) ≡ conv (A.Smoother.taps first) (B.Smoother.taps second)) }
    {
        first.show().fits(&second.show())?;
        Ok(Pile { first, second })
    }
}

impl<A: Smoother, B: Smoother> Smoother for Pile<A, B> {
    ghost taps = { λ p. piled (A.Smoother.taps p.first) (B.Smoother.taps p.second) };

    ghost some = { λ s. (piled_length _ _ (A.Smoother.some s.first) (B.Smoother.some s.second)).0 };

    ghost short = { λ s. (piled_length _ _ (A.Smoother.some s.first) (B.Smoother.some s.second)).1 };

    ghost heavy = { λ s. (piled_scale _ _ (A.Smoother.heavy s.first) (B.Smoother.heavy s.second)).0 };

    ghost light = { λ s. (piled_scale _ _ (A.Smoother.heavy s.first) (B.Smoother.heavy s.second)).1 };

    ghost diminishing = { λ s.
        let a = A.Smoother in
        let b = B.Smoother in
        piled_diminishing _ _ (a.some s.first) (b.some s.second) (a.diminishing s.first) (b.diminishing s.second) };

    /// Asks each part once. The limits are tested again, since a pile cannot hold what it knew of its parts when it was made.
    fn show(&self) -> TapList {
        let a = self.first.show();
        let b = self.second.show();
        match a.fits(&b) {
            Ok(()) => a.pile(&b),
            Err(_) => TapList::one(),
        }
    }
}
