//! The listing of a level.
ghost use Rattle.std.specs.Prelude.{◌≡◌, length, Ok};
ghost use Rattle.levels.specs.Drawing.{allowed};
ghost use Rattle.levels.specs.Walks.{come_to};
ghost use Rattle.schedule.specs.Calls.{passes};
ghost use Rattle.sheets.specs.Lines.{answer};
ghost use Rattle.listing.specs.declared.listings.ListingFault.TheVariants.{Refused};
ghost use Rattle.listing.specs.Listing.{listing};
ghost use Rattle.listing.specs.Listings.{listing_number, level_text, listed};

use crate::lines::{round_turns, write_heights};
use levels::walks::Walk;
use samples::limits::MOST_HEIGHTS;
use samples::refusals::Refusal;
use samples::turns::find;
use scale_space::turns::{Turn, TurnKind};
use schedule::schedules::Schedule;
use sheets::faults::SheetFault;

/// Why a level was not listed.
#[derive(Clone, Copy, Debug, PartialEq, Eq)]
pub enum ListingFault {
    /// It cannot be drawn.
    Refused(Refusal),
    BufferTooShort,
}

impl ListingFault {
    // By hand: a case carries another error, so no discriminant gives this number.
    /// The number by which the fault is known outside.
    pub fn number(self) -> u8
        ensures { result ≡ listing_number self }
    {
        match self {
            ListingFault::Refused(refusal) => refusal.number(),
            ListingFault::BufferTooShort => 23,
        }
    }
}

impl From<Refusal> for ListingFault {
    ghost from_gives = { λ refusal fault. fault ≡ Refused refusal };

    fn from(refusal: Refusal) -> ListingFault {
        ListingFault::Refused(refusal)
    }
}

/// Writes the listing of the level that a walk has come to into the front of `out`, and answers how many bytes it has.
pub fn list(walk: &Walk, out: &mut [u8]) -> Result<usize, SheetFault>
    ensures answers { result ≡ (answer (Ok (listing walk.now.level (come_to walk.now))) out.old).0 }
    ensures writes { out.new ≡ (answer (Ok (listing walk.now.level (come_to walk.now))) out.old).1 }
{
    // A table with a place for each sample, since nothing here allocates.
    let mut table = [Turn {
        kind: TurnKind::Ridge,
        place: 0,
        numerator: 0,
    }; MOST_HEIGHTS];
    let Ok(count) = find(walk.numerators(), &mut table) else {
        return unreachable();
    };
    let turns = &mut table[..count];
    round_turns(turns, walk.scale());
    write_heights(walk.level(), turns, out)
}

/// Writes the listing of level k of a schedule, drawn from a profile, into the front of `out`, and answers how many bytes it
/// has. A level that `draw` would refuse is refused for the same reason; then comes an `out` that is too short.
pub fn list_level(
    schedule: &Schedule,
    k: usize,
    profile: &[i64],
    out: &mut [u8],
) -> Result<usize, ListingFault>
    ensures answers { result ≡ (listed (allowed (passes schedule.now) k profile.now (length profile.now)) (level_text (passes schedule.now) k profile.now) out.old).0 }
    ensures writes { out.new ≡ (listed (allowed (passes schedule.now) k profile.now (length profile.now)) (level_text (passes schedule.now) k profile.now) out.old).1 }
{
    let mut walk = Walk::new(schedule, k, profile)?;
    walk.climb();
    list(&walk, out).map_err(|_| ListingFault::BufferTooShort)
}
