//! Levels, for a tool.
ghost use Rattle.std.specs.Prelude.{◌≡◌, List, length, ℤ, Ok};
ghost use Rattle.scale_space.specs.declared.passes.Pass.{Pass};
ghost use Rattle.scale_space.specs.Laws.{Calm};
ghost use Rattle.sheets.specs.Profiles.{profile_of};
ghost use Rattle.sheets.specs.ScheduleSheets.{schedule_of};
ghost use Rattle.embedding.specs.Replies.{reply_to};
ghost use Rattle.embedding.specs.Drawings.{level_drawn, length_of, scale_after, work_after};
ghost use Rattle.embedding.specs.Listings.{level_listed};

use crate::replies::{Obstacle, Reply};
use levels::draw::{Drawn, draw};
use listing::listings::list_level;
use sheets::profiles::profile_in;
use sheets::schedule_sheets::schedule_in;

fn list_from_sheets(
    schedule: &[u8],
    level: usize,
    profile: &[u8],
    out: &mut [u8],
) -> Result<usize, Obstacle>
    ensures answers { result ≡ (level_listed (schedule_of schedule.now) level (profile_of profile.now) out.old).0 }
    ensures writes { out.new ≡ (level_listed (schedule_of schedule.now) level (profile_of profile.now) out.old).1 }
{
    let built = schedule_in(schedule).map_err(Obstacle::First)?;
    let heights = profile_in(profile).map_err(Obstacle::Second)?;
    list_level(&built, level, heights.as_slice(), out).map_err(Obstacle::from)
}

/// Writes the listing of one level, of the schedule and the profile that two sheets give, into the front of `out`, and counts
/// its bytes. The schedule sheet is looked at first, then the profile sheet, then whether the level can be drawn, then the room.
pub fn hekudoja_list_level(schedule: &[u8], level: usize, profile: &[u8], out: &mut [u8]) -> Reply
    ensures answers { result ≡ reply_to (level_listed (schedule_of schedule.now) level (profile_of profile.now) out.old).0 }
    ensures writes { out.new ≡ (level_listed (schedule_of schedule.now) level (profile_of profile.now) out.old).1 }
{
    Reply::from(list_from_sheets(schedule, level, profile, out))
}

fn draw_from_sheet(
    schedule: &[u8],
    level: usize,
    heights: &[i64],
    work: &mut [i64],
) -> Result<Drawn, Obstacle>
    ensures answer { result ≡ level_drawn (schedule_of schedule.now) level heights.now (length work.old) }
    ensures places { work.new ≡ work_after (schedule_of schedule.now) level heights.now work.old }
{
    let built = schedule_in(schedule).map_err(Obstacle::First)?;
    Ok(draw(&built, level, heights, work)?)
}

/// Draws one level of the schedule that a sheet gives, exactly and in place: `work` then begins with the level's numerators,
/// followed by 0 up to the number of heights, and is unchanged from there on. The numerators are counted, and `scale` is what
/// they are to be divided by; a refusal leaves both as they were. Whatever the heights, no level has more turns, or more crossings
/// of a whole height, than the one before it.
pub fn hekudoja_draw(
    schedule: &[u8],
    level: usize,
    heights: &[i64],
    work: &mut [i64],
    scale: &mut u64,
) -> Reply
    ensures answers { result ≡ reply_to (length_of (level_drawn (schedule_of schedule.now) level heights.now (length work.old))) }
    ensures scales { scale.new ≡ scale_after (level_drawn (schedule_of schedule.now) level heights.now (length work.old)) scale.old }
    ensures places { work.new ≡ work_after (schedule_of schedule.now) level heights.now work.old }
    ensures calm { (ps : List Pass) (hs : List ℤ) → schedule_of schedule.now ≡ Ok ps → Calm ps hs }
{
    let drawn = draw_from_sheet(schedule, level, heights, work);
    if let Ok(drawn) = drawn {
        *scale = drawn.scale;
    }
    Reply::from(drawn.map(|drawn| drawn.length))
}
