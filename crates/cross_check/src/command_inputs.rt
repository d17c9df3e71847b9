//! Inputs of the command: good ones, damaged ones, and ones parted in odd ways.
use crate::generator::Generator;
use crate::grounds::{alternating, count, lawful, profile_text};
use crate::inputs::both;
use crate::second::writing::schedule_text;
use crate::texts::{profile_sheet, schedule_sheet};
use std::alloc::{AllocError, Global};

/// What may stand at the beginning, between the sheets or at the end.
const MARKS: [&str; 8] = ["", "", "\n", "\n", "\n\n", "\n\n\n", "\r\n", " \n"];

const ODD_BYTES: &[u8] = b",\n-019+ \0";

/// Short inputs.
pub const SHORT: [&str; 16] = [
    "",
    "\n",
    "\n\n",
    "taps,a,b,c",
    "taps,a,b,c\n",
    "taps,a,b,c\n\n",
    "taps,a,b,c\n\nstation,height",
    "taps,a,b,c\n\nstation,height\n",
    "taps,a,b,c\n\nstation,height\n0,5\n",
    "taps,a,b,c\n\nstation,height\n0,5\n\n",
    "taps,a,b,c\n\n\nstation,height\n0,5\n",
    "taps,a,b,c\nstation,height\n0,5\n",
    "\ntaps,a,b,c\n\nstation,height\n0,5\n",
    "taps,a,b,c\n2,0,1,\n\nstation,height\n",
    "taps,a,b,c\n2,0,1,\n\nstation,height\n0,5\n",
    "taps,a,b,c\n2,0,1,\n\nstation,height\n0,5\n1,6\n",
];

fn joined(heap: Global, parts: &[&[u8]]) -> Result<Vec<u8>, AllocError> {
    let mut text = Vec::new(heap);
    for part in parts {
        text.extend_from_slice(part)?;
    }
    Ok(text)
}

/// A schedule and a profile, both as they should be. There may still be too few stations.
fn good_sheets(generator: &mut Generator) -> Result<(String, String), AllocError> {
    let heap = generator.heap;
    let schedule = schedule_text(heap, &both(generator).list)?;
    let count = count(generator);
    let profile = profile_text(heap, &lawful(generator, count)?)?;
    Ok((schedule, profile))
}

fn good(generator: &mut Generator) -> Result<Vec<u8>, AllocError> {
    let (schedule, profile) = good_sheets(generator)?;
    joined(
        generator.heap,
        &[schedule.as_bytes(), b"\n", profile.as_bytes()],
    )
}

/// Sheets with faults of their own.
fn faulty(generator: &mut Generator) -> Result<Vec<u8>, AllocError> {
    let schedule = schedule_sheet(generator)?;
    let profile = profile_sheet(generator)?;
    joined(generator.heap, &[&schedule, b"\n", &profile])
}

fn mark(generator: &mut Generator) -> &'static str {
    generator.pick(&MARKS, "")
}

fn seldom_mark(generator: &mut Generator) -> &'static str {
    if generator.once_in(3) {
        mark(generator)
    } else {
        ""
    }
}

/// Good sheets with odd marks before, between and after them.
fn odd(generator: &mut Generator) -> Result<Vec<u8>, AllocError> {
    let (schedule, profile) = good_sheets(generator)?;
    let between = mark(generator);
    let before = seldom_mark(generator);
    let after = seldom_mark(generator);
    joined(
        generator.heap,
        &[
            before.as_bytes(),
            schedule.as_bytes(),
            between.as_bytes(),
            profile.as_bytes(),
            after.as_bytes(),
        ],
    )
}

// Not the `damaged` of `texts`: it draws in another order and from other bytes, and the draws pin what is printed.
/// Good sheets of which one byte is changed, dropped or doubled, or the end is cut off.
fn damaged(generator: &mut Generator) -> Result<Vec<u8>, AllocError> {
    let mut text = good(generator)?;
    let place = generator.place(text.len());
    let Some(byte) = text.get(place).copied() else {
        return Ok(text);
    };
    match generator.below(4) {
        0 => text[place] = generator.pick(ODD_BYTES, b'\n'),
        1 => {
            text.remove(place);
        }
        2 => text.insert(place, byte)?,
        _ => text.truncate(place),
    }
    Ok(text)
}

pub fn input(generator: &mut Generator) -> Result<Vec<u8>, AllocError> {
    match generator.below(6) {
        0 | 1 => good(generator),
        2 => faulty(generator),
        3 => odd(generator),
        _ => damaged(generator),
    }
}

/// So many passes of one kind on so many stations as far apart as can be.
pub fn large(
    heap: Global,
    pass: &str,
    passes: usize,
    stations: usize,
) -> Result<String, AllocError> {
    let mut text = String::from_str(heap, "taps,a,b,c\n")?;
    for _ in 0..passes {
        text.push_str(pass)?;
    }
    let profile = profile_text(heap, &alternating(heap, stations)?)?;
    write!(text, "\n{profile}")?;
    Ok(text)
}
