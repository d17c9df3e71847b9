//! The crossings of a height.
ghost use Rattle.std.specs.Prelude.{◌≡◌, List, length, ℤ, pos, ◌*ℤ◌};
ghost use Rattle.std.proofs.Math.Path.{refl};
ghost use Rattle.scale_space.specs.Turns.{spot};
ghost use Rattle.scale_space.specs.Crossings.{crossing, crossings, away};
ghost use Rattle.samples.specs.Answers.{crossed, written};
ghost use Rattle.samples.specs.Finders.{then, sign_of, seen_side, seen_place, crossings_ahead, crossings_from};

use crate::finder::{Finder, list};
use crate::limits::{is_height, is_scale};
use crate::refusals::Refusal;
use scale_space::crossings::{Crossing, Direction};
use std::cmp::Ordering;

/// Reads along the samples, from one that is not at the height to the next.
#[derive(Clone, Copy)]
struct CrossingFinder {
    height: i64,
    /// How the last sample that was not at the height compares to it, and its place.
    seen: Option<(Ordering, usize)>,
}

impl CrossingFinder {
    /// The crossing from the last sample to one at a place that compares so to the height, if the two lie on opposite sides.
    fn crossing(&self, to: usize, side: Ordering) -> Option<Crossing>
        ensures { (v : ℤ) (cs : List Crossing) → crossing (seen_side self.now.seen) (sign_of side) (spot (seen_place self.now.seen) self.now.height) (spot to v) cs ≡ then result cs }
    {
        let (last, from) = self.seen?;
        let direction = match (last, side) {
            (Ordering::Less, Ordering::Greater) => Direction::Up,
            (Ordering::Greater, Ordering::Less) => Direction::Down,
            _ => return None,
        };
        Some(Crossing {
            from,
            to,
            direction,
        })
    }
}

impl Finder for CrossingFinder {
    type Found = Crossing;

    ghost finds = { crossings_ahead };

    ghost nothing = { unfold crossings_ahead crossings_from away in λ f n. refl };

    fn read(&mut self, place: usize, sample: i64) -> Option<Crossing> {
        let side = sample.cmp(&self.height);
        if side.is_eq() {
            return None;
        }
        let crossing = self.crossing(place, side);
        self.seen = Some((side, place));
        crossing
    }
}

/// Finds where the samples, numerators over the scale, cross a whole height, and puts the crossings into the caller's
/// table in order of place. Answers how many there are; where there are more than table places it refuses and writes none.
pub fn find(
    samples: &[i64],
    scale: u64,
    height: i64,
    table: &mut [Crossing],
) -> Result<usize, Refusal>
    ensures answer { result ≡ crossed samples.now scale height (length table.old) }
    ensures places { table.new ≡ written result (crossings (height *ℤ pos scale) samples.now) table.old }
{
    if !is_scale(scale) || !is_height(height) {
        return Err(Refusal::ScaleOrHeight);
    }
    let finder = CrossingFinder {
        height: height * scale as i64,
        seen: None,
    };
    list(finder, samples, table)
}
