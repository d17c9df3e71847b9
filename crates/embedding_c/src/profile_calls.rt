//! Profile sheets, exported.
ghost use Rattle.std.specs.Prelude.{◌≡◌};
ghost use Rattle.sheets.specs.Lines.{answer};
ghost use Rattle.sheets.specs.Profiles.{profile_of, ExactProfile};
ghost use Rattle.embedding.specs.Replies.{reply_to};
ghost use Rattle.embedding.specs.Sheets.{sheet_or_room};

use embedding::profile_calls;
use embedding::replies::Reply;

/// Reads a profile sheet into the front of `heights`, and counts its heights.
#[unsafe(no_mangle)]
pub extern "C" fn hekudoja_read_profile(sheet: &[u8], heights: &mut [i64]) -> Reply
    ensures answers { result ≡ reply_to (sheet_or_room (answer (profile_of sheet.now) heights.old).0) }
    ensures writes { heights.new ≡ (answer (profile_of sheet.now) heights.old).1 }
    ensures exact { ExactProfile }
{
    profile_calls::hekudoja_read_profile(sheet, heights)
}
