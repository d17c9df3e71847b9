//! A walk up the levels of a schedule, one pass for each level. Its buffer is held inline, so that nothing about it can fail
//! for want of memory.
ghost use Rattle.std.specs.Prelude.{◌≡◌, ◌*◌, ◌^◌, ◌<◌, ◌≤◌, true, length, take, drop};
ghost use Rattle.scale_space.specs.Passes.{reach, product};
ghost use Rattle.samples.specs.Answers.{heights_fit};
ghost use Rattle.schedule.specs.Calls.{passes};

use crate::draw::Drawn;
use samples::limits::MOST_HEIGHTS;
use schedule::schedules::Schedule;

pub mod reading;
pub mod steps;

/// It has come to `level`, and may go up to `last`. The level's numerators are the first of the samples, as many as `drawn`
/// says. For the passes that are still ahead there are samples enough, and the scale has room.
// The samples stay an array: the level's length stands in `drawn`, and an `ArrayVec` would keep it twice.
#[derive(Drop)]
pub struct Walk {
    schedule: Schedule,
    last: usize,
    level: usize,
    samples: [i64; MOST_HEIGHTS],
    drawn: Drawn,
    ghost full: { length samples ≡ 2048 },
    ghost short: { drawn.length ≤ 2048 },
    ghost inside: { last ≤ length (passes schedule) },
    ghost long: { reach (drop level (take last (passes schedule))) < drawn.length },
    ghost some: { 1 ≤ drawn.scale },
    ghost bounded: { drawn.scale * product (drop level (take last (passes schedule))) ≤ 2 ^ 40 },
    ghost fit: { heights_fit drawn.scale (take drawn.length samples) ≡ true },
}
