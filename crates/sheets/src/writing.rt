//! Schedule sheets written.
ghost use Rattle.std.specs.Prelude.{◌≡◌, ◌+◌, ◌≤◌, [], ◌∷◌, ◌++◌, length, take, IfOk, Ok, decimal};
ghost use Rattle.schedule.specs.Calls.{passes as standing};
ghost use Rattle.sheets.specs.Lines.{answer};
ghost use Rattle.sheets.specs.ScheduleSheets.{pass_line, schedule_sheet, schedule_of, ExactSchedule};

use crate::faults::SheetFault;
use crate::lines::put_in_front;
use arrayvec::ArrayString;
use itoa::Buffer;
use scale_space::passes::Pass;
use schedule::schedules::Schedule;

/// Appends a weight, which has at most ten digits.
fn push_weight(n: u32, sheet: &mut ArrayString<875>)
    requires { length sheet.old.bytes + 10 ≤ 875 }
    ensures text { sheet.new.bytes ≡ sheet.old.bytes ++ decimal n }
    ensures most { length sheet.new.bytes ≤ length sheet.old.bytes + 10 }
{
    let mut buffer = Buffer::new();
    sheet.push_str(buffer.format(n));
}

/// Appends the value line of a pass.
fn push_line(pass: Pass, sheet: &mut ArrayString<875>)
    requires { length sheet.old.bytes + 36 ≤ 875 }
    ensures text { sheet.new.bytes ≡ sheet.old.bytes ++ (pass_line 0 pass ++ (10 ∷ [])) }
    ensures most { length sheet.new.bytes ≤ length sheet.old.bytes + 36 }
{
    // Tried with `write!`, of which no clause says that it succeeds where there is room, so the text stayed unproved.
    match pass {
        Pass::Pair(a, b) => {
            sheet.push_str("2,");
            push_weight(a, sheet);
            sheet.push_str(",");
            push_weight(b, sheet);
            sheet.push_str(",\n");
        }
        Pass::Triple(a, b, c) => {
            sheet.push_str("3,");
            push_weight(a, sheet);
            sheet.push_str(",");
            push_weight(b, sheet);
            sheet.push_str(",");
            push_weight(c, sheet);
            sheet.push_str("\n");
        }
    }
}

/// The sheet of these passes: 24 lines of at most 36 bytes have room behind the names.
fn sheet_of(passes: &[Pass]) -> ArrayString<875>
    requires { length passes.now ≤ 24 }
    ensures { result.bytes ≡ schedule_sheet passes.now }
{
    let mut sheet = ArrayString::new();
    sheet.push_str("taps,a,b,c\n");
    for pass in passes {
        push_line(*pass, &mut sheet);
    }
    sheet
}

/// Writes the sheet of a schedule into the front of `out`, and answers how many bytes it has. What was written is read back
/// to the same passes, and a sheet in reduced form that was read is written back to the same bytes.
pub fn write_schedule(schedule: &Schedule, out: &mut [u8]) -> Result<usize, SheetFault>
    ensures answers { result ≡ (answer (Ok (schedule_sheet (standing schedule.now))) out.old).0 }
    ensures writes { out.new ≡ (answer (Ok (schedule_sheet (standing schedule.now))) out.old).1 }
    ensures back { IfOk result (λ n. schedule_of (take n out.new) ≡ Ok (standing schedule.now)) }
    ensures exact { ExactSchedule }
{
    // The names take 11 bytes, and the marks of a line 5: where these alone have no room, nothing is made.
    if out.len() < 11 + 5 * schedule.len() {
        return Err(SheetFault::BufferTooShort);
    }
    let sheet = sheet_of(schedule.as_slice());
    put_in_front(sheet.as_str().as_bytes(), out)
}
