//! A theorem about schedules alone, in the contract of a function that does nothing else.
ghost use Rattle.std.specs.Prelude.{◌≡◌, Decides};
ghost use Rattle.std.specs.Cmp.Lexicographic.{pointwise};
ghost use Rattle.scale_space.specs.Primes.{same};
ghost use Rattle.schedule.specs.Calls.{passes};

use crate::schedules::Schedule;

/// `==` tells schedules apart exactly where different passes stand in them, or in another order.
pub fn equality_decides()
    ensures decides { (s t : Schedule) → Decides (⟦<Schedule as PartialEq>⟧.eq s t) (passes s ≡ passes t) }
    ensures same { (s t : Schedule) → ⟦<Schedule as PartialEq>⟧.eq s t ≡ pointwise same (passes s) (passes t) }
{}
