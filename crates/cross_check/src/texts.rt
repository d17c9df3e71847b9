//! Sheets to read: good ones, and ones that are damaged.
use crate::generator::Generator;
use std::alloc::{AllocError, Global};

/// Once in so many times a field is an odd one, or a station out of step.
const SELDOM: u64 = 60;

const ODD_BYTES: &[u8] = b",,\n\n-019+ \0";

/// What may stand in place of a good field.
const ODD_FIELDS: [&str; 16] = [
    "",
    "00",
    "01",
    "-0",
    "-",
    "+1",
    "-1",
    "-01",
    " 1",
    "1a",
    "1001",
    "100001",
    "-100001",
    "18446744073709551616",
    "340282366920938463463374607431768211456000000000000000000",
    "-340282366920938463463374607431768211456000000000000000000",
];

/// Puts a number, or now and then something odd, and then a mark.
fn put_field(
    generator: &mut Generator,
    text: &mut String,
    number: i64,
    mark: char,
) -> Result<(), AllocError> {
    if generator.once_in(SELDOM) {
        let odd = generator.pick(&ODD_FIELDS, "");
        write!(text, "{odd}{mark}")
    } else {
        write!(text, "{number}{mark}")
    }
}

fn put_weight(
    generator: &mut Generator,
    text: &mut String,
    most: i64,
    mark: char,
) -> Result<(), AllocError> {
    let weight = generator.between(0, most);
    put_field(generator, text, weight, mark)
}

fn put_schedule_line(generator: &mut Generator, text: &mut String) -> Result<(), AllocError> {
    let triple = generator.once_in(2);
    put_field(generator, text, if triple { 3 } else { 2 }, ',')?;
    put_weight(generator, text, 2, ',')?;
    put_weight(generator, text, 19, ',')?;
    if triple {
        put_weight(generator, text, 2, '\n')
    } else {
        text.push('\n')
    }
}

/// A schedule sheet of up to 30 lines.
pub fn schedule_sheet(generator: &mut Generator) -> Result<Vec<u8>, AllocError> {
    let mut text = String::from_str(generator.heap, "taps,a,b,c\n")?;
    let most = if generator.once_in(6) { 31 } else { 7 };
    for _ in 0..generator.below(most) {
        put_schedule_line(generator, &mut text)?;
    }
    damaged(generator, text.into_bytes())
}

fn height(generator: &mut Generator) -> i64 {
    let most = generator.pick(&[0, 9, 100_000], 9);
    if generator.once_in(4) {
        most
    } else {
        generator.around(most)
    }
}

fn put_profile_line(
    generator: &mut Generator,
    text: &mut String,
    station: i64,
) -> Result<(), AllocError> {
    put_field(generator, text, station, ',')?;
    let height = height(generator);
    put_field(generator, text, height, '\n')
}

/// A profile sheet of a few lines.
pub fn profile_sheet(generator: &mut Generator) -> Result<Vec<u8>, AllocError> {
    let mut text = String::from_str(generator.heap, "station,height\n")?;
    let mut station: i64 = 0;
    for _ in 0..generator.below(14) {
        put_profile_line(generator, &mut text, station)?;
        let next = if generator.once_in(SELDOM) {
            generator.between(-1, 2)
        } else {
            1
        };
        station = station.saturating_add(next);
    }
    damaged(generator, text.into_bytes())
}

/// A good profile sheet of so many lines, each as long as a line may be.
pub fn long_profile(heap: Global, lines: usize) -> Result<String, AllocError> {
    let mut text = String::from_str(heap, "station,height\n")?;
    for station in 0..lines {
        writeln!(text, "{station},-100000")?;
    }
    Ok(text)
}

/// A sheet of so many bytes in all, with digits between a beginning and an end.
pub fn stretched(
    heap: Global,
    begin: &str,
    end: &str,
    bytes: usize,
) -> Result<Vec<u8>, AllocError> {
    let mut text = begin.as_bytes().to_vec(heap)?;
    text.resize(bytes.saturating_sub(end.len()), b'7')?;
    text.extend_from_slice(end.as_bytes())?;
    Ok(text)
}

/// One sheet in two stays whole. In the others a byte is changed, dropped, doubled or put in, or the end is cut off.
fn damaged(generator: &mut Generator, mut text: Vec<u8>) -> Result<Vec<u8>, AllocError> {
    if generator.once_in(2) {
        return Ok(text);
    }
    let place = generator.place(text.len().saturating_add(1));
    let back = text.split_off(place.min(text.len()))?;
    put_damage(generator, &mut text, &back)?;
    Ok(text)
}

fn put_damage(
    generator: &mut Generator,
    text: &mut Vec<u8>,
    back: &[u8],
) -> Result<(), AllocError> {
    if generator.once_in(3) {
        text.push(generator.pick(ODD_BYTES, b','))?;
    } else if generator.once_in(4) {
        text.extend(back.iter().take(1))?;
    }
    let dropped = generator.pick(&[0, 0, 1, 1, 1, usize::MAX], 0);
    text.extend_from_slice(back.get(dropped..back.len()).unwrap_or(b""))
}
