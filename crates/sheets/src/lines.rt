//! The lines of a sheet, one after another.
ghost use Rattle.std.specs.Prelude.{◌≡◌, ℕ, ◌+◌, ◌^◌, ◌<◌, List, [], ◌∷◌, length, Ok, Err, Result, MatchOption, MatchResult, ◌==◌};
ghost use Rattle.std.specs.List.{position};
ghost use Rattle.sheets.specs.declared.faults.SheetFault.{SheetFault as Fault};
ghost use Rattle.sheets.specs.Lines.{cut, opened, walked, answer};

use crate::faults::SheetFault;
use crate::limits::MOST_BYTES;

/// The place of the first `mark`.
fn place_of(mark: char, text: &[u8]) -> Option<usize>
    ensures { result ≡ position (λ b. b == mark) text.now }
{
    text.iter().position(|byte| *byte as char == mark)
}

/// What stands before the first `mark` and what follows it.
pub fn split(text: &[u8], mark: char) -> Option<(&[u8], &[u8])>
    ensures { MatchOption result (cut mark text.now ≡ text.now ∷ []) (λ p. (cut mark text.now ≡ p.0.now ∷ cut mark p.1.now) × (length p.1.now < length text.now)) }
{
    let at = place_of(mark, text)?;
    Some((&text[..at], &text[at + 1..]))
}

/// What follows the first line, which must be `names`, of a sheet that is not too long.
pub fn after_names<'a>(sheet: &'a [u8], names: &[u8]) -> Result<&'a [u8], SheetFault>
    ensures { MatchResult result (λ rest. opened names.now sheet.now ≡ Ok (cut 10 rest.now)) (λ e. opened names.now sheet.now ≡ Err e) }
{
    if sheet.len() > MOST_BYTES {
        return Err(SheetFault::TooLong);
    }
    let (first, rest) = split(sheet, '\n').ok_or(SheetFault::WrongNames)?;
    if first == names {
        Ok(rest)
    } else {
        Err(SheetFault::WrongNames)
    }
}

/// What the value lines of a sheet are read into, one after another.
pub trait ReadsLines {
    type Value;

    /// The values of the lines that were read.
    ghost values: { Self → List Self.Value };

    /// What value line `k`, cut into fields, makes of the values before it.
    ghost read: { ℕ → List Self.Value → List (List ℕ) → Result (List Self.Value) Fault };

    /// Reads value line `k`, which is line `k + 2` of the sheet and gives one value more.
    fn read_line(&mut self, line: &[u8], k: usize) -> Result<(), SheetFault>
        requires few { k < 2 ^ 63 }
        requires next { k ≡ length (values self.old) }
        ensures { MatchResult result (λ u. (read k (values self.old) (cut 44 line.now) ≡ Ok (values self.new)) × (length (values self.new) ≡ k + 1)) (λ e. read k (values self.old) (cut 44 line.now) ≡ Err e) };
}

/// Reads value lines, the first of which is line 2 of the sheet.
pub fn walk<R: ReadsLines>(text: &[u8], into: &mut R) -> Result<(), SheetFault>
    requires { R.values into.old ≡ [] }
    ensures { MatchResult result (λ u. walked R.read 0 [] (cut 10 text.now) ≡ Ok (R.values into.new)) (λ e. walked R.read 0 [] (cut 10 text.now) ≡ Err e) }
{
    // `split` also yields what follows the last line's end; for `split_inclusive`, tried, no invariant could be stated.
    let mut rest = text;
    let mut k = 0;
    while !rest.is_empty() {
        let (line, after) = split(rest, '\n').ok_or(SheetFault::Malformed { line: k + 2 })?;
        into.read_line(line, k)?;
        k += 1;
        rest = after;
    }
    Ok(())
}

/// Writes values into the front of `places`, and answers how many they are. Where the places are too few, they stay as they
/// were.
pub fn put_in_front<T: Copy>(values: &[T], places: &mut [T]) -> Result<usize, SheetFault>
    ensures answers { result ≡ (answer (Ok values.now) places.old).0 }
    ensures writes { places.new ≡ (answer (Ok values.now) places.old).1 }
{
    if values.len() > places.len() {
        return Err(SheetFault::BufferTooShort);
    }
    places[..values.len()].copy_from_slice(values);
    Ok(values.len())
}
