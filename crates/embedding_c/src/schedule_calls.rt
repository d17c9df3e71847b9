//! Schedule sheets, exported: checked, compared and reduced.
ghost use Rattle.std.specs.Prelude.{◌≡◌, take};
ghost use Rattle.sheets.specs.ScheduleSheets.{schedule_of, counted};
ghost use Rattle.embedding.specs.Replies.{reply_to, in_first};
ghost use Rattle.embedding.specs.Sheets.{rewritten};
ghost use Rattle.embedding.specs.Verdicts.{Compares};

use embedding::replies::Reply;
use embedding::schedule_calls;

/// Reads a schedule sheet and counts its passes.
#[unsafe(no_mangle)]
pub extern "C" fn hekudoja_check_schedule(sheet: &[u8]) -> Reply
    ensures { result ≡ reply_to (in_first (counted (schedule_of sheet.now))) }
{
    schedule_calls::hekudoja_check_schedule(sheet)
}

/// Compares the schedules of two sheets: the count is 1 where they are equal, which is where no lawful profile that is longer
/// than both reaches tells them apart, and 0 where they are not. The first sheet is looked at first.
#[unsafe(no_mangle)]
pub extern "C" fn hekudoja_compare(first: &[u8], second: &[u8]) -> Reply
    ensures { Compares (schedule_of first.now) (schedule_of second.now) result }
{
    schedule_calls::hekudoja_compare(first, second)
}

/// Writes the sheet of the same schedule, with reduced weights, into the front of `out`, and counts its bytes. The sheet
/// that was written gives just what the other gave.
#[unsafe(no_mangle)]
pub extern "C" fn hekudoja_reduce_schedule(sheet: &[u8], out: &mut [u8]) -> Reply
    ensures answers { result ≡ reply_to (rewritten (schedule_of sheet.now) out.old).0 }
    ensures writes { out.new ≡ (rewritten (schedule_of sheet.now) out.old).1 }
    ensures back { result.refusal ≡ 0 → schedule_of (take result.count out.new) ≡ schedule_of sheet.now }
{
    schedule_calls::hekudoja_reduce_schedule(sheet, out)
}
