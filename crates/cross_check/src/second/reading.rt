//! Reading sheets: the text is split into lines, a line into fields, and a field is read as a wide number.
use crate::second::faults::{Answer, Fault};
use crate::second::limits::{MOST_BYTES, MOST_HEIGHTS, is_height};
use crate::second::schedules::PassList;
use std::alloc::{AllocError, Global};

const SCHEDULE_NAMES: &[u8] = b"taps,a,b,c";

const PROFILE_NAMES: &[u8] = b"station,height";

/// The parts of a text between the marks: one more than there are marks.
fn parts<'a>(heap: Global, text: &'a [u8], mark: u8) -> Result<Vec<&'a [u8]>, AllocError> {
    text.split(|byte| *byte == mark).collect(heap)
}

/// Refuses a sheet that is too long, or whose first line is another one or has no end.
fn check_names(sheet: &[u8], lines: &[&[u8]], names: &[u8]) -> Result<(), Fault> {
    if sheet.len() > MOST_BYTES {
        return Err(Fault::plain(24));
    }
    match lines {
        [first, _, ..] if *first == names => Ok(()),
        _ => Err(Fault {
            number: 20,
            line: 1,
        }),
    }
}

fn malformed() -> Fault {
    Fault::plain(21)
}

fn refused() -> Fault {
    Fault::plain(22)
}

/// A number with one more digit. A very large one stays at the largest that there is.
fn with_digit(value: i128, byte: u8) -> Option<i128> {
    let digit = char::from(byte).to_digit(10)?;
    Some(value.saturating_mul(10).saturating_add(i128::from(digit)))
}

/// A number without sign, None where it is malformed.
fn natural(text: &[u8]) -> Option<i128> {
    match text {
        [] | [b'0', _, ..] => None,
        _ => text
            .iter()
            .try_fold(0, |value, byte| with_digit(value, *byte)),
    }
}

/// A number that may have a minus, if it is not 0.
fn integer(text: &[u8]) -> Option<i128> {
    match text {
        [b'-', rest @ ..] => natural(rest)
            .filter(|size| *size > 0)
            .map(i128::saturating_neg),
        _ => natural(text),
    }
}

/// A weight, cut to the largest that a call takes, which is refused as well.
fn weight(text: &[u8]) -> Result<u32, Fault> {
    let weight = natural(text).ok_or(malformed())?;
    Ok(u32::try_from(weight).unwrap_or(u32::MAX))
}

/// Adds a line's pass to the list, or says which refusal the line has.
fn add_fields(list: &mut PassList, fields: &[&[u8]]) -> Result<(), Fault> {
    let added = match fields {
        [[b'2'], a, b, []] => list.add_pair(weight(a)?, weight(b)?),
        [[b'3'], a, b, c] => list.add_triple(weight(a)?, weight(b)?, weight(c)?),
        _ => return Err(malformed()),
    };
    added.map(|_| ()).map_err(|_| refused())
}

/// What stands after the last line end is no line if it is empty, and else a line without an end.
fn check_rest(rest: &[u8]) -> Result<(), Fault> {
    if rest.is_empty() {
        Ok(())
    } else {
        Err(malformed())
    }
}

/// Takes each line below the names, or says which one is at fault.
fn take_lines<F: FnMut(&[u8]) -> Result<(), Fault>>(
    lines: &[&[u8]],
    mut take: F,
) -> Result<(), Fault>
    requires { F.IsAlwaysCallable take }
{
    for (line, text) in (1..).zip(lines.iter()).skip(1) {
        let taken = if line == lines.len() {
            check_rest(text)
        } else {
            take(text)
        };
        taken.map_err(|fault| Fault { line, ..fault })?;
    }
    Ok(())
}

/// Puts the passes of a sheet in place of those that stand.
pub fn read_schedule(heap: Global, sheet: &[u8], list: &mut PassList) -> Answer {
    let lines = parts(heap, sheet, b'\n')?;
    check_names(sheet, &lines, SCHEDULE_NAMES)?;
    let mut read = PassList::new(heap);
    take_lines(&lines, |text| {
        add_fields(&mut read, &parts(heap, text, b',')?)
    })?;
    *list = read;
    Ok(list.len())
}

/// The height of a line, or which refusal the line has.
fn height_of(place: usize, fields: &[&[u8]]) -> Result<i64, Fault> {
    let [station, height] = fields else {
        return Err(malformed());
    };
    let station = natural(station).ok_or(malformed())?;
    let height = integer(height).ok_or(malformed())?;
    lawful_height(place, station, height)
}

fn lawful_height(place: usize, station: i128, height: i128) -> Result<i64, Fault> {
    let next = usize::try_from(station) == Ok(place) && place < MOST_HEIGHTS;
    if !next || !is_height(height) {
        return Err(refused());
    }
    i64::try_from(height).map_err(|_| refused())
}

fn put_line(heap: Global, heights: &mut Vec<i64>, text: &[u8]) -> Result<(), Fault> {
    let height = height_of(heights.len(), &parts(heap, text, b',')?)?;
    heights.push(height)?;
    Ok(())
}

/// The heights of a sheet.
pub fn heights(heap: Global, sheet: &[u8]) -> Result<Vec<i64>, Fault> {
    let lines = parts(heap, sheet, b'\n')?;
    check_names(sheet, &lines, PROFILE_NAMES)?;
    let mut read = Vec::new(heap);
    take_lines(&lines, |text| put_line(heap, &mut read, text))?;
    Ok(read)
}

/// Puts the heights of a sheet into the front of the buffer.
pub fn read_profile(heap: Global, sheet: &[u8], out: &mut [i64]) -> Answer {
    let read = heights(heap, sheet)?;
    if out.len() < read.len() {
        return Err(Fault::plain(23));
    }
    out[..read.len()].copy_from_slice(&read);
    Ok(read.len())
}
