//! Schedule sheets, for a tool: checked, compared and reduced.
ghost use Rattle.std.specs.Prelude.{◌≡◌, take, IfOk};
ghost use Rattle.schedule.specs.Calls.{passes};
ghost use Rattle.sheets.specs.ScheduleSheets.{schedule_of, counted};
ghost use Rattle.embedding.specs.Replies.{reply_to, in_first};
ghost use Rattle.embedding.specs.Sheets.{rewritten};
ghost use Rattle.embedding.specs.Verdicts.{Verdict, Compares};

use crate::replies::{Obstacle, Reply};
use primes::comparing::{Comparison, compare};
use schedule::schedules::Schedule;
use sheets::schedule_sheets::schedule_in;
use sheets::writing::write_schedule;

fn count_passes(sheet: &[u8]) -> Result<usize, Obstacle>
    ensures { result ≡ in_first (counted (schedule_of sheet.now)) }
{
    let schedule = schedule_in(sheet).map_err(Obstacle::First)?;
    Ok(schedule.len())
}

/// Reads a schedule sheet and counts its passes.
pub fn hekudoja_check_schedule(sheet: &[u8]) -> Reply
    ensures { result ≡ reply_to (in_first (counted (schedule_of sheet.now))) }
{
    Reply::from(count_passes(sheet))
}

/// 1 where two schedules are equal, and 0 where they are not.
fn verdict(x: &Schedule, y: &Schedule) -> usize
    ensures { Verdict (passes x.now) (passes y.now) result }
{
    usize::from(compare(x, y) == Comparison::Equal)
}

fn compare_sheets(first: &[u8], second: &[u8]) -> Result<usize, Obstacle>
    ensures { Compares (schedule_of first.now) (schedule_of second.now) (reply_to result) }
{
    let x = schedule_in(first).map_err(Obstacle::First)?;
    let y = schedule_in(second).map_err(Obstacle::Second)?;
    Ok(verdict(&x, &y))
}

/// Compares the schedules of two sheets: the count is 1 where they are equal, which is where no lawful profile that is longer
/// than both reaches tells them apart, and 0 where they are not. The first sheet is looked at first.
pub fn hekudoja_compare(first: &[u8], second: &[u8]) -> Reply
    ensures { Compares (schedule_of first.now) (schedule_of second.now) result }
{
    Reply::from(compare_sheets(first, second))
}

fn rewrite(sheet: &[u8], out: &mut [u8]) -> Result<usize, Obstacle>
    ensures answers { result ≡ (rewritten (schedule_of sheet.now) out.old).0 }
    ensures writes { out.new ≡ (rewritten (schedule_of sheet.now) out.old).1 }
    ensures back { IfOk result (λ n. schedule_of (take n out.new) ≡ schedule_of sheet.now) }
{
    let schedule = schedule_in(sheet).map_err(Obstacle::First)?;
    write_schedule(&schedule, out).map_err(|_| Obstacle::Room)
}

/// Writes the sheet of the same schedule, with reduced weights, into the front of `out`, and counts its bytes. The sheet
/// that was written gives just what the other gave.
pub fn hekudoja_reduce_schedule(sheet: &[u8], out: &mut [u8]) -> Reply
    ensures answers { result ≡ reply_to (rewritten (schedule_of sheet.now) out.old).0 }
    ensures writes { out.new ≡ (rewritten (schedule_of sheet.now) out.old).1 }
    ensures back { result.refusal ≡ 0 → schedule_of (take result.count out.new) ≡ schedule_of sheet.now }
{
    Reply::from(rewrite(sheet, out))
}
