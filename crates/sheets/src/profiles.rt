//! Profile sheets: stations 0, 1, 2 and so on, each with its height.
ghost use Rattle.std.specs.Prelude.{◌≡◌, ◌^◌, ◌<◌};
ghost use Rattle.std.specs.Option.{option_map, ok_or};
ghost use Rattle.sheets.specs.declared.faults.SheetFault.TheVariants.{Malformed};
ghost use Rattle.sheets.specs.Lines.{cut, answer};
ghost use Rattle.sheets.specs.Profiles.{station_height, capped_both, accepted, height_at, with_height, profile_of, heights_in, ExactProfile};

use crate::faults::SheetFault;
use crate::lines::{ReadsLines, after_names, put_in_front, split, walk};
use crate::tokens::Token;
use arrayvec::ArrayVec;
use samples::limits::{MOST_HEIGHTS, is_height};

/// The station and the height of a value line.
fn value_line(line: &[u8], number: usize) -> Result<(u32, i64), SheetFault>
    ensures { result ≡ ok_or (option_map capped_both (station_height (cut 44 line.now))) (Malformed number) }
{
    let (station, rest) = split(line, ',').ok_or(SheetFault::Malformed { line: number })?;
    let station = Token::new(station, number).number()?;
    // A further comma is no part of a number, so what holds one is no height.
    let height = Token::new(rest, number).number()?;
    Ok((station, height))
}

/// Whether a station and a height may stand in the value line of station `k`.
fn fits(k: usize, station: u32, height: i64) -> bool
    ensures { result ≡ accepted k (station, height) }
{
    k < MOST_HEIGHTS && station as usize == k && is_height(height)
}

/// The height of the value line of station `k`.
fn height_of(line: &[u8], k: usize) -> Result<i64, SheetFault>
    requires { k < 2 ^ 63 }
    ensures { result ≡ height_at k (cut 44 line.now) }
{
    let (station, height) = value_line(line, k + 2)?;
    if fits(k, station, height) {
        Ok(height)
    } else {
        Err(SheetFault::Refused { line: k + 2 })
    }
}

impl ReadsLines for ArrayVec<i64, 2048> {
    type Value = i64;

    ghost values = { λ heights. heights.items };

    ghost read = { with_height };

    fn read_line(&mut self, line: &[u8], k: usize) -> Result<(), SheetFault> {
        self.push(height_of(line, k)?);
        Ok(())
    }
}

/// The heights of a sheet.
pub fn profile_in(sheet: &[u8]) -> Result<ArrayVec<i64, 2048>, SheetFault>
    ensures { heights_in result ≡ profile_of sheet.now }
{
    let rest = after_names(sheet, b"station,height")?;
    let mut heights = ArrayVec::<i64, 2048>::new();
    walk(rest, &mut heights)?;
    Ok(heights)
}

/// Reads a profile sheet into the front of `heights`, and answers how many heights it has. A sheet gives heights just where
/// it is, byte for byte, the sheet of those heights.
pub fn read_profile(sheet: &[u8], heights: &mut [i64]) -> Result<usize, SheetFault>
    ensures answers { result ≡ (answer (profile_of sheet.now) heights.old).0 }
    ensures writes { heights.new ≡ (answer (profile_of sheet.now) heights.old).1 }
    ensures exact { ExactProfile }
{
    // Not by `profile_in`: a list of 16 KiB that is answered is moved, which costs a short sheet more than its reading.
    let rest = after_names(sheet, b"station,height")?;
    let mut read = ArrayVec::<i64, 2048>::new();
    walk(rest, &mut read)?;
    // The caller's places are written only once all of the sheet was found good.
    put_in_front(read.as_slice(), heights)
}
