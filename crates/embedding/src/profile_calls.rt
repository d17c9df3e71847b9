//! Profile sheets, for a tool.
ghost use Rattle.std.specs.Prelude.{◌≡◌};
ghost use Rattle.sheets.specs.Lines.{answer};
ghost use Rattle.sheets.specs.Profiles.{profile_of, ExactProfile};
ghost use Rattle.embedding.specs.Replies.{reply_to};
ghost use Rattle.embedding.specs.Sheets.{blamed, sheet_or_room};

use crate::replies::{Obstacle, Reply};
use sheets::faults::SheetFault;
use sheets::profiles::read_profile;

/// Where the room is too short, the sheet is not at fault.
// No `From`, since in another call the same fault is another obstacle.
fn blame(fault: SheetFault) -> Obstacle
    ensures { result ≡ blamed fault }
{
    match fault {
        SheetFault::BufferTooShort => Obstacle::Room,
        _ => Obstacle::First(fault),
    }
}

/// Reads a profile sheet into the front of `heights`, and counts its heights.
pub fn hekudoja_read_profile(sheet: &[u8], heights: &mut [i64]) -> Reply
    ensures answers { result ≡ reply_to (sheet_or_room (answer (profile_of sheet.now) heights.old).0) }
    ensures writes { heights.new ≡ (answer (profile_of sheet.now) heights.old).1 }
    ensures exact { ExactProfile }
{
    Reply::from(read_profile(sheet, heights).map_err(blame))
}
