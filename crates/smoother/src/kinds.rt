//! The kinds of smoother that passes and schedules are.
ghost use Rattle.std.specs.Prelude.{◌≡◌, List, ℤ};
ghost use Rattle.scale_space.specs.Levels.{ground, weighed};
ghost use Rattle.scale_space.specs.Passes.{weights, taps, level};
ghost use Rattle.schedule.specs.Calls.{passes};
ghost use Rattle.schedule.specs.Kinds.{single_pass};
ghost use Rattle.smoother.specs.TapLists.{shown};
ghost use Rattle.schedule.proofs.Meaning.{proper_means};
ghost use Rattle.smoother.specs.Passing.{pass_short, pass_light, pass_diminishing, taps_short, taps_heavy, taps_light, taps_diminishing};
ghost use Rattle.scale_space.proofs.Piles.{weights_some, taps_some};
ghost use Rattle.schedule.proofs.Standing.{standing};

use crate::interface::Smoother;
use crate::tap_lists::TapList;
use scale_space::passes::Pass;
use schedule::schedules::Schedule;
use schedule::singles::Single;

/// The weights of a pass as taps.
impl From<Pass> for TapList {
    ghost from_gives = { λ pass list. shown list ≡ weights pass };

    fn from(pass: Pass) -> TapList {
        match pass {
            Pass::Pair(a, b) => TapList::two(a, b),
            Pass::Triple(a, b, c) => TapList::three(a, b, c),
        }
    }
}

impl<const N: usize> Smoother for Single<N> {
    ghost taps = { λ p. weights (single_pass p) };

    ghost some = { λ s. weights_some _ };

    ghost short = { λ s. pass_short _ };

    ghost heavy = { λ s. (proper_means _ s.stands).some };

    ghost light = { λ s. pass_light _ (proper_means _ s.stands) };

    ghost diminishing = { λ s. pass_diminishing _ (proper_means _ s.stands) };

    fn show(&self) -> TapList {
        TapList::from(self.pass())
    }
}

/// The taps of a schedule: its passes' weights piled in order, and the one tap 1 where none stands. Laid on a profile they
/// give the last level that the schedule draws. From the last pass to the first, each is piled before those behind it.
pub fn taps_of(schedule: &Schedule) -> TapList
    ensures piled { shown result ≡ taps (passes schedule.now) }
    ensures draws { (hs : List ℤ) → level (passes schedule.now) hs ≡ weighed (taps (passes schedule.now)) (ground hs) }
{
    let mut taps = TapList::one();
    for pass in schedule.as_slice().iter().rev() {
        taps = TapList::from(*pass).pile(&taps);
    }
    taps
}

impl Smoother for Schedule {
    ghost taps = { λ s. taps (passes s) };

    ghost some = { λ s. taps_some _ };

    ghost short = { λ s. taps_short _ (standing s).short };

    ghost heavy = { λ s. taps_heavy _ (standing s).each };

    ghost light = { λ s. taps_light _ (standing s).bounded };

    ghost diminishing = { λ s. taps_diminishing _ (standing s).each };

    fn show(&self) -> TapList {
        taps_of(self)
    }
}
