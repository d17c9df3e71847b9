//! The lines of a level's turns.
ghost use Rattle.std.specs.Prelude.{◌≡◌, ◌*◌, ◌≤◌, true, ◌++◌, map, length, Ok, codes, unsigned_abs};
ghost use Rattle.std.specs.List.{flat_map, AllByRecursion};
ghost use Rattle.samples.specs.Answers.{scale_lawful};
ghost use Rattle.sheets.specs.Lines.{answer};
ghost use Rattle.listing.specs.Listing.{kind_word, names, height_line, turn_rounded};
ghost use Rattle.listing.specs.Putting.{RoomFor, Penned};

use crate::fields::{Pen, signed_width, width};
use samples::rounding::round_one;
use scale_space::turns::{Turn, TurnKind};
use sheets::faults::SheetFault;

/// The word of a kind, with the commas before and after it.
// Bytes with their commas: a `Display` of the kind would only be a text to be copied.
fn word(kind: TurnKind) -> &'static [u8]
    ensures bytes { result.now ≡ codes "," ++ (kind_word kind ++ codes ",") }
    ensures most { length result.now ≤ 8 }
{
    match kind {
        TurnKind::Ridge => b",ridge,",
        TurnKind::Hollow => b",hollow,",
    }
}

/// How many bytes the line of a turn has. The turn's numerator is its height.
// Here and below the level's number goes beside the turns: a struct of both would be taken apart again for each line.
fn line_size(level: usize, turn: Turn) -> usize
    ensures size { result ≡ length (height_line level turn) }
    ensures most { result ≤ 80 }
{
    let numbers = width(level as u64) + width(turn.place as u64) + signed_width(turn.numerator);
    numbers + word(turn.kind).len() + 2
}

/// Puts the line of a turn, whose numerator is its height.
fn put_line(level: usize, turn: Turn, pen: &mut Pen)
    requires { RoomFor (height_line level turn) pen.old }
    ensures { Penned (height_line level turn) pen.old pen.new }
{
    pen.word(b"\n");
    pen.signed(turn.numerator);
    pen.word(word(turn.kind));
    pen.number(turn.place as u64);
    pen.word(b",");
    pen.number(level as u64);
}

/// How many bytes the lines of these turns have. Each turn's numerator is its height.
fn lines_size(level: usize, turns: &[Turn]) -> usize
    requires { length turns.now ≤ 2048 }
    ensures size { result ≡ length (flat_map (height_line level) turns.now) }
    ensures most { result ≤ 163840 }
{
    // A loop: a chain's `sum` was tried, and the bound that the caller's own sum needs did not prove.
    let mut size = 0;
    for turn in turns {
        size += line_size(level, *turn);
    }
    size
}

/// Puts the lines of these turns, whose numerators are their heights. The last line is put first.
fn put_lines(level: usize, turns: &[Turn], pen: &mut Pen)
    requires { RoomFor (flat_map (height_line level) turns.now) pen.old }
    ensures { Penned (flat_map (height_line level) turns.now) pen.old pen.new }
{
    for turn in turns.iter().rev() {
        put_line(level, *turn, pen);
    }
}

/// Puts its rounded height in place of each turn's numerator, so that no line divides again.
pub(crate) fn round_turns(turns: &mut [Turn], scale: u64)
    requires lawful { scale_lawful scale ≡ true }
    requires small { AllByRecursion (λ t. unsigned_abs t.numerator ≤ 100000 * scale) turns.old }
    ensures { turns.new ≡ map (turn_rounded scale) turns.old }
{
    for turn in turns.iter_mut() {
        let Ok(height) = round_one(turn.numerator, scale) else {
            return unreachable();
        };
        turn.numerator = height;
    }
}

/// The names of the fields, which stand before the lines of level 0.
fn names_before(level: usize) -> &'static [u8]
    ensures bytes { result.now ≡ names level }
    ensures most { length result.now ≤ 24 }
{
    if level == 0 {
        b"level,place,kind,height\n"
    } else {
        b""
    }
}

/// Writes the names and the lines of these turns, whose numerators are their heights. Their size is found first, so that a
/// refusal leaves `out` as it was.
pub(crate) fn write_heights(
    level: usize,
    turns: &[Turn],
    out: &mut [u8],
) -> Result<usize, SheetFault>
    requires { length turns.now ≤ 2048 }
    ensures answers { result ≡ (answer (Ok (names level ++ flat_map (height_line level) turns.now)) out.old).0 }
    ensures writes { out.new ≡ (answer (Ok (names level ++ flat_map (height_line level) turns.now)) out.old).1 }
{
    let names = names_before(level);
    let size = names.len() + lines_size(level, turns);
    if size > out.len() {
        return Err(SheetFault::BufferTooShort);
    }
    let mut pen = Pen::new(out, size);
    put_lines(level, turns, &mut pen);
    pen.word(names);
    Ok(size)
}
