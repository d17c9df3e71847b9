//! What the command prints.
ghost use Rattle.std.specs.Prelude.{◌≡◌, suc, ◌+◌, ◌≤◌, List, ◌++◌, length, drop, ℤ, IfOk};
ghost use Rattle.scale_space.specs.declared.passes.Pass.{Pass};
ghost use Rattle.levels.specs.Walks.{come_to, At};
ghost use Rattle.listing.specs.Listing.{listing};
ghost use Rattle.command.specs.Answering.{listings, printed, replied};

use crate::asking::set_out;
use levels::walks::Walk;
use listing::listings::list;
use listing::refusal_lines::write_rejection;
use sheets::faults::SheetFault;

/// Room for any listing: 25 levels, with 2,048 lines of 23 bytes and the 24 bytes of the names for each.
pub const MOST_OUTPUT: usize = 1_178_200;

/// Writes the listing of the walk's level into the front of `out`, where any has room, and answers how many bytes it has.
#[tactic(auto, using(crate::proofs::Levels::text_short))]
fn put_level(walk: &Walk, out: &mut [u8]) -> usize
    requires low { walk.now.level ≤ 24 }
    requires room { 47128 ≤ length out.old }
    ensures size { result ≡ length (listing walk.now.level (come_to walk.now)) }
    ensures most { result ≤ 47128 }
    ensures bytes { out.new ≡ listing walk.now.level (come_to walk.now) ++ drop result out.old }
{
    let Ok(size) = list(walk, out) else {
        return unreachable();
    };
    size
}

/// Puts the listings of all levels into the front of `out`, and answers how many bytes they have.
fn put_levels(walk: &mut Walk, out: &mut [u8]) -> usize
    requires start { walk.old.level ≡ 0 }
    requires room { 1178200 ≤ length out.old }
    ensures most { result ≤ 1178200 }
    ensures bytes { (ps : List Pass) (hs : List ℤ) → At walk.old ps (length ps) 0 hs → (result ≡ length (listings ps hs (suc (length ps)))) × (out.new ≡ listings ps hs (suc (length ps)) ++ drop result out.old) }
{
    let mut at = 0;
    // Each level takes the place of the one before it in the walk, so no iterator can yield them.
    loop {
        at += put_level(walk, &mut out[at..]);
        if !walk.step() {
            return at;
        }
    }
}

/// The command on bytes: writes what it prints for an input into the front of `out`, and answers how many bytes that is.
/// It is never more than `MOST_OUTPUT`; where `out` has fewer places, the call refuses and leaves `out` as it was.
pub fn answer(input: &[u8], out: &mut [u8]) -> Result<usize, SheetFault>
    ensures answers { result ≡ (replied (printed input.now) out.old).0 }
    ensures writes { out.new ≡ (replied (printed input.now) out.old).1 }
    ensures most { IfOk result (λ n. n ≤ 1178200) }
{
    if out.len() < MOST_OUTPUT {
        return Err(SheetFault::BufferTooShort);
    }
    match set_out(input) {
        Ok(mut walk) => Ok(put_levels(&mut walk, out)),
        Err(rejection) => write_rejection(rejection, out),
    }
}
