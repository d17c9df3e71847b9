//! The turns of all levels, for a tool.
ghost use Rattle.std.specs.Prelude.{◌≡◌, ℕ, suc, ◌<◌, ◌≤◌, List, length, ℤ, slice_index};
ghost use Rattle.scale_space.specs.declared.passes.Pass.{Pass};
ghost use Rattle.levels.specs.Walks.{At};
ghost use Rattle.sheets.specs.ScheduleSheets.{schedule_of};
ghost use Rattle.embedding.specs.Replies.{reply_to};
ghost use Rattle.embedding.specs.Tallies.{turn_counts, tallied};

use crate::replies::{Obstacle, Reply};
use levels::walks::Walk;
use samples::turns;
use sheets::schedule_sheets::schedule_in;

/// Puts the number of turns of each level into its place of `counts`. At the last level the walk stays.
fn put_counts(walk: &mut Walk, counts: &mut [u64])
    requires start { walk.old.level ≡ 0 }
    requires all { length counts.old ≡ suc walk.old.last }
    ensures { (ps : List Pass) (hs : List ℤ) → At walk.old ps (length ps) 0 hs → counts.new ≡ turn_counts ps hs (suc (length ps)) }
{
    for count in counts.iter_mut() {
        *count = turns::count(walk.numerators()) as u64;
        walk.step();
    }
}

fn tally(schedule: &[u8], heights: &[i64], counts: &mut [u64]) -> Result<usize, Obstacle>
    ensures answers { result ≡ (tallied (schedule_of schedule.now) heights.now counts.old).0 }
    ensures writes { counts.new ≡ (tallied (schedule_of schedule.now) heights.now counts.old).1 }
{
    let built = schedule_in(schedule).map_err(Obstacle::First)?;
    let last = built.len();
    let mut walk = Walk::new(&built, last, heights)?;
    let levels = last + 1;
    if counts.len() < levels {
        return Err(Obstacle::Room);
    }
    put_counts(&mut walk, &mut counts[0..levels]);
    Ok(levels)
}

/// Counts the turns of every level of the schedule that a sheet gives, level 0 first, into the front of `counts`, and answers how
/// many levels there are. No number is larger than the one before it.
pub fn hekudoja_count_turns(schedule: &[u8], heights: &[i64], counts: &mut [u64]) -> Reply
    ensures answers { result ≡ reply_to (tallied (schedule_of schedule.now) heights.now counts.old).0 }
    ensures writes { counts.new ≡ (tallied (schedule_of schedule.now) heights.now counts.old).1 }
    ensures falling { (k : ℕ) → suc k < result.count → slice_index counts.new (suc k) ≤ slice_index counts.new k }
{
    Reply::from(tally(schedule, heights, counts))
}
