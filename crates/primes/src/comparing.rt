//! Whether two schedules do the same to every profile.
ghost use Rattle.std.specs.Prelude.{◌≡◌, ◌↔◌};
ghost use Rattle.scale_space.specs.Equality.{SameTable, SameLevels, SameSamples};
ghost use Rattle.schedule.specs.Calls.{passes};

use crate::tables::PrimeTable;
use schedule::schedules::Schedule;

#[derive(Clone, Copy, PartialEq, Eq, Debug)]
pub enum Comparison {
    Equal,
    Different,
}

/// Compares two schedules by their prime tables. They are equal exactly when no profile that both can smooth tells them
/// apart: when the last levels always are the same, and when those always agree in length and as fractions.
pub fn compare(x: &Schedule, y: &Schedule) -> Comparison
    ensures tables { (result ≡ Comparison.Equal) ↔ SameTable (passes x.now) (passes y.now) }
    ensures levels { (result ≡ Comparison.Equal) ↔ SameLevels (passes x.now) (passes y.now) }
    ensures samples { (result ≡ Comparison.Equal) ↔ SameSamples (passes x.now) (passes y.now) }
{
    let p = PrimeTable::of(x);
    let q = PrimeTable::of(y);
    if p == q {
        Comparison::Equal
    } else {
        Comparison::Different
    }
}
