//! What a call replies to a tool.
ghost use Rattle.std.specs.Prelude.{◌≡◌};
ghost use Rattle.embedding.specs.declared.replies.Obstacle.TheVariants.{Draw};
ghost use Rattle.embedding.specs.Listings.{why_unlisted};
ghost use Rattle.embedding.specs.Replies.{told, reply_to};

use listing::listings::ListingFault;
use samples::refusals::Refusal;
use sheets::faults::SheetFault;

/// What was done or found is counted. `refusal` is the refusal's number, or 0 where there is none; `sheet` is the sheet that is
/// at fault, 1 or 2, and `line` the line of it, counted from 1. Both are 0 where no sheet or line is at fault.
// Four numbers and no enum, since C reads it.
#[repr(C)]
#[derive(Clone, Copy, PartialEq, Eq, Debug)]
pub struct Reply {
    pub count: u64,
    pub refusal: u64,
    pub sheet: u64,
    pub line: u64,
}

/// Why a call changed nothing, and what is at fault.
#[derive(Clone, Copy, PartialEq, Eq, Debug)]
pub enum Obstacle {
    /// The first sheet of the call.
    First(SheetFault),
    Second(SheetFault),
    /// The level cannot be drawn.
    Draw(Refusal),
    /// The caller's buffer is too short.
    Room,
}

impl From<Refusal> for Obstacle {
    ghost from_gives = { λ why o. o ≡ Draw why };

    fn from(why: Refusal) -> Obstacle {
        Obstacle::Draw(why)
    }
}

impl From<ListingFault> for Obstacle {
    ghost from_gives = { λ fault o. o ≡ why_unlisted fault };

    fn from(fault: ListingFault) -> Obstacle {
        match fault {
            ListingFault::Refused(why) => Obstacle::Draw(why),
            ListingFault::BufferTooShort => Obstacle::Room,
        }
    }
}

impl From<Obstacle> for Reply {
    ghost from_gives = { λ what reply. reply ≡ told what };

    fn from(what: Obstacle) -> Reply {
        let (refusal, sheet, line) = match what {
            Obstacle::First(fault) => (fault.number(), 1, fault.line()),
            Obstacle::Second(fault) => (fault.number(), 2, fault.line()),
            Obstacle::Draw(why) => (why.number(), 0, 0),
            Obstacle::Room => (23, 0, 0),
        };
        Reply {
            count: 0,
            refusal: u64::from(refusal),
            sheet,
            line: line as u64,
        }
    }
}

impl From<Result<usize, Obstacle>> for Reply {
    ghost from_gives = { λ outcome reply. reply ≡ reply_to outcome };

    fn from(outcome: Result<usize, Obstacle>) -> Reply {
        match outcome {
            Ok(count) => Reply {
                count: count as u64,
                refusal: 0,
                sheet: 0,
                line: 0,
            },
            Err(what) => Reply::from(what),
        }
    }
}
