//! The turns of a level.
ghost use Rattle.std.specs.Prelude.{◌≡◌, length};
ghost use Rattle.std.proofs.Math.Path.{refl};
ghost use Rattle.scale_space.specs.Turns.{turns, flats_after};
ghost use Rattle.samples.specs.Answers.{listed, written};
ghost use Rattle.samples.specs.Finders.{turns_ahead, turns_from};

use crate::finder;
use crate::finder::{Finder, list};
use crate::refusals::Refusal;
use scale_space::turns::{Turn, TurnKind};
use std::cmp::Ordering;

/// Where the samples are heading, as far as they have been read.
// An enum of its own, and each sample moves it in place by one match: a form that the project fixes here.
#[derive(Clone, Copy)]
enum Heading {
    Level,
    Rising,
    Falling,
}

/// Reads along the samples: it is level, rising or falling, and each sample moves it.
#[derive(Clone, Copy)]
struct TurnFinder {
    heading: Heading,
    /// The place of the first sample of the flat that is being read.
    place: usize,
    last: i64,
}

impl TurnFinder {
    /// A finder that is about to read these samples: level with the first, it finds all their turns.
    fn new(samples: &[i64]) -> TurnFinder
        ensures { turns_ahead result 0 samples.now ≡ turns samples.now }
    {
        TurnFinder {
            heading: Heading::Level,
            place: 0,
            last: samples.first().copied().unwrap_or(0),
        }
    }

    /// The flat that is being read, as a turn.
    fn turn(&self, kind: TurnKind) -> Turn
        ensures { result ≡ record { kind = kind; place = self.now.place; numerator = self.now.last } }
    {
        Turn {
            kind,
            place: self.place,
            numerator: self.last,
        }
    }

    /// Begins a flat at the place.
    fn begin(&mut self, heading: Heading, place: usize, sample: i64)
        ensures { self.new ≡ record { heading = heading; place = place; last = sample } }
    {
        *self = TurnFinder {
            heading,
            place,
            last: sample,
        };
    }
}

impl Finder for TurnFinder {
    type Found = Turn;

    ghost finds = { turns_ahead };

    ghost nothing = { unfold turns_ahead turns_from flats_after in λ f n. refl };

    fn read(&mut self, place: usize, sample: i64) -> Option<Turn> {
        match (self.heading, sample.cmp(&self.last)) {
            (_, Ordering::Equal) => None,
            (Heading::Falling, Ordering::Greater) => {
                let hollow = self.turn(TurnKind::Hollow);
                self.begin(Heading::Rising, place, sample);
                Some(hollow)
            }
            (_, Ordering::Greater) => {
                self.begin(Heading::Rising, place, sample);
                None
            }
            (Heading::Rising, Ordering::Less) => {
                let ridge = self.turn(TurnKind::Ridge);
                self.begin(Heading::Falling, place, sample);
                Some(ridge)
            }
            (_, Ordering::Less) => {
                self.begin(Heading::Falling, place, sample);
                None
            }
        }
    }
}

/// Finds the ridges and hollows of the samples, and puts them into the caller's table in order of place. Answers how many
/// there are; where there are more than table places it refuses and writes none.
pub fn find(samples: &[i64], table: &mut [Turn]) -> Result<usize, Refusal>
    ensures answer { result ≡ listed (turns samples.now) (length table.old) }
    ensures places { table.new ≡ written result (turns samples.now) table.old }
{
    list(TurnFinder::new(samples), samples, table)
}

/// How many ridges and hollows the samples have.
pub fn count(samples: &[i64]) -> usize
    ensures { result ≡ length (turns samples.now) }
{
    finder::count(TurnFinder::new(samples), samples)
}
