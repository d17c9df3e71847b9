//! The turns of all levels, exported.
ghost use Rattle.std.specs.Prelude.{◌≡◌, ℕ, suc, ◌<◌, ◌≤◌, slice_index};
ghost use Rattle.sheets.specs.ScheduleSheets.{schedule_of};
ghost use Rattle.embedding.specs.Replies.{reply_to};
ghost use Rattle.embedding.specs.Tallies.{tallied};

use embedding::replies::Reply;
use embedding::turn_calls;

/// Counts the turns of every level of the schedule that a sheet gives, level 0 first, into the front of `counts`, and answers how
/// many levels there are. No number is larger than the one before it.
#[unsafe(no_mangle)]
pub extern "C" fn hekudoja_count_turns(
    schedule: &[u8],
    heights: &[i64],
    counts: &mut [u64],
) -> Reply
    ensures answers { result ≡ reply_to (tallied (schedule_of schedule.now) heights.now counts.old).0 }
    ensures writes { counts.new ≡ (tallied (schedule_of schedule.now) heights.now counts.old).1 }
    ensures falling { (k : ℕ) → suc k < result.count → slice_index counts.new (suc k) ≤ slice_index counts.new k }
{
    turn_calls::hekudoja_count_turns(schedule, heights, counts)
}
