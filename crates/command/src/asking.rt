//! What an input asks for: two sheets, read and made ready.
ghost use Rattle.sheets.specs.Profiles.{profile_of};
ghost use Rattle.sheets.specs.ScheduleSheets.{schedule_of};
ghost use Rattle.command.specs.Asking.{together, asked, SetsOut};

use crate::parting::part;
use levels::walks::Walk;
use listing::refusal_lines::Rejection;
use sheets::limits::MOST_BYTES;
use sheets::profiles::profile_in;
use sheets::schedule_sheets::schedule_in;

/// Reads the schedule sheet and the profile sheet, and sets out for the last level.
fn set_out_with(first: &[u8], second: &[u8]) -> Result<Walk, Rejection>
    ensures { SetsOut result (together (schedule_of first.now) (profile_of second.now)) }
{
    let schedule = schedule_in(first).map_err(Rejection::Schedule)?;
    let heights = profile_in(second).map_err(Rejection::Profile)?;
    Walk::new(&schedule, schedule.len(), heights.as_slice()).map_err(Rejection::Draw)
}

/// A walk that sets out to do what the input asks for.
pub fn set_out(input: &[u8]) -> Result<Walk, Rejection>
    ensures { SetsOut result (asked input.now) }
{
    if input.len() > MOST_BYTES {
        return Err(Rejection::Input);
    }
    let (first, second) = part(input);
    set_out_with(first, second)
}
