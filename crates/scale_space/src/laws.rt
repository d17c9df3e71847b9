//! Theorems about the definitions alone. Each stands in the contract of a function that does nothing else.
ghost use Rattle.std.specs.Prelude.{◌≡◌, ℕ, ◌<◌, Decides, List, map, length, ℤ, ◌-ℤ◌};
ghost use Rattle.std.specs.Ordering.{partial_lt};
ghost use Rattle.scale_space.specs.Laws.{Piles};
ghost use Rattle.scale_space.specs.Levels.{Level, mapped, Calmer};
ghost use Rattle.scale_space.specs.Rounding.{Rounds};
ghost use Rattle.scale_space.specs.Signs.{changes, differences};
ghost use Rattle.scale_space.specs.Turns.{turns};
ghost use Rattle.scale_space.specs.Crossings.{crossings};
ghost use Rattle.scale_space.specs.Places.{TurnsAreThese, CrossingsAreThese, PlacesAscend};
ghost use Rattle.scale_space.specs.Primes.{same};
ghost use Rattle.scale_space.specs.Tables.{before, same_record};

use crate::passes::Pass;
use crate::primes::PrimeCount;

/// The lists of turns and crossings hold exactly the turns and crossings there are, in order of place, and they are as
/// many as the changes of sign of the differences, and of the samples less the height.
pub fn counts_are_changes()
    ensures turns { (xs : List ℤ) → length (turns xs) ≡ changes (differences xs) }
    ensures crossings { (h : ℤ) (xs : List ℤ) → length (crossings h xs) ≡ changes (map (λ x. x -ℤ h) xs) }
    ensures ridges { TurnsAreThese }
    ensures heights { CrossingsAreThese }
    ensures ordered { PlacesAscend }
{}

/// Windows of windows are windows of the taps piled; reaches add up, scales multiply, and the law of taps is passed on.
pub fn taps_pile()
    ensures { (p q : List ℕ) → 0 < length p → 0 < length q → Piles p q }
{}

/// A map that keeps order and whole heights, and so any rule of rounding that does, adds no turn and no crossing of a whole
/// height, and stays between the lowest and the highest.
pub fn roundings_are_calm()
    ensures { (l : Level) (r : ℤ → ℤ) → Rounds l.scale r → Calmer l (mapped r l) }
{}

/// `==` tells passes apart exactly where they differ, and so records; `<` puts pairs before triples, and then the smaller
/// weights, first weight first.
pub fn comparisons_decide()
    ensures passes { (p q : Pass) → Decides (⟦<Pass as PartialEq>⟧.eq p q) (p ≡ q) }
    ensures same { (p q : Pass) → ⟦<Pass as PartialEq>⟧.eq p q ≡ same p q }
    ensures less { (p q : Pass) → partial_lt ⟦<Pass as PartialOrd>⟧.partial_cmp p q ≡ before p q }
    ensures records { (r s : PrimeCount) → Decides (⟦<PrimeCount as PartialEq>⟧.eq r s) (r ≡ s) }
    ensures same_records { (r s : PrimeCount) → ⟦<PrimeCount as PartialEq>⟧.eq r s ≡ same_record r s }
{}
