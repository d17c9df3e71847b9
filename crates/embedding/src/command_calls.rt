//! The command, for a tool.
ghost use Rattle.std.specs.Prelude.{◌≡◌, ◌≤◌};
ghost use Rattle.command.specs.Answering.{printed, replied};
ghost use Rattle.embedding.specs.Replies.{reply_to, for_room};

use crate::replies::{Obstacle, Reply};
use command::answering::answer;

/// The command on bytes: writes what `profile-turns` prints for the input into the front of `out`, and counts its bytes. It
/// refuses with 23 just where `out` has fewer than 1,178,200 places, and then leaves `out` as it was.
pub fn hekudoja_answer(input: &[u8], out: &mut [u8]) -> Reply
    ensures answers { result ≡ reply_to (for_room (replied (printed input.now) out.old).0) }
    ensures writes { out.new ≡ (replied (printed input.now) out.old).1 }
    ensures most { result.count ≤ 1178200 }
{
    Reply::from(answer(input, out).map_err(|_| Obstacle::Room))
}
