//! A theorem about prime tables alone, in the contract of a function that does nothing else.
ghost use Rattle.std.specs.Prelude.{◌≡◌, Decides};
ghost use Rattle.std.specs.Cmp.Lexicographic.{pointwise};
ghost use Rattle.scale_space.specs.Tables.{same_record};
ghost use Rattle.primes.specs.Entries.{entries};

use crate::tables::PrimeTable;

/// `==` tells prime tables apart exactly where they hold different records.
pub fn equality_decides()
    ensures decides { (s t : PrimeTable) → Decides (⟦<PrimeTable as PartialEq>⟧.eq s t) (entries s ≡ entries t) }
    ensures same { (s t : PrimeTable) → ⟦<PrimeTable as PartialEq>⟧.eq s t ≡ pointwise same_record (entries s) (entries t) }
{}
