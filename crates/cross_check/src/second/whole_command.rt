//! The whole command: the input is split into lines, the first empty one found, both sheets read, and each level listed.
use crate::second::faults::{Answer, Fault};
use crate::second::level_listing::level_text;
use crate::second::limits::MOST_BYTES;
use crate::second::reading::{heights, read_schedule};
use crate::second::schedules::PassList;
use crate::second::writing::write_text;
use std::alloc::{AllocError, Global};
use std::fmt;

/// The room that the command asks for, whatever it has to print.
pub const ROOM: usize = 1_178_200;

/// What is refused.
#[derive(Clone, Copy)]
pub enum Origin {
    Input,
    Schedule,
    Profile,
    Draw,
}

impl Origin {
    pub fn refused(self, fault: Fault) -> Rejected {
        Rejected {
            origin: self,
            fault,
        }
    }
}

impl fmt::Display for Origin {
    fn fmt<W: fmt::Write>(&self, f: &mut fmt::Formatter<W>) -> fmt::Result {
        f.write_str(match self {
            Origin::Input => "input",
            Origin::Schedule => "schedule",
            Origin::Profile => "profile",
            Origin::Draw => "draw",
        })
    }
}

#[derive(Clone, Copy)]
pub struct Rejected {
    pub origin: Origin,
    pub fault: Fault,
}

/// What the command prints, and whether that is the line of a refusal.
#[derive(Drop)]
pub struct Output {
    pub text: String,
    pub rejected: Option<Rejected>,
}

pub fn rejection_line(heap: Global, rejected: &Rejected) -> Result<String, AllocError> {
    let origin = rejected.origin;
    let number = rejected.fault.number;
    let line = rejected.fault.line;
    format!(in heap; "{origin},{number},{line}\n")
}

/// What stands before the first empty line, and what after it.
fn sheets_of(input: &[u8]) -> (&[u8], &[u8]) {
    let mut start: usize = 0;
    for line in input.split_inclusive(|byte| *byte == b'\n') {
        let next = start.saturating_add(line.len());
        if line == b"\n".as_slice() {
            let before = input.get(0..start).unwrap_or(input);
            let after = input.get(next..input.len()).unwrap_or(input);
            return (before, after);
        }
        start = next;
    }
    (input, b"")
}

fn all_levels(heap: Global, list: &PassList, profile: &[i64]) -> Result<String, Fault> {
    let mut text = String::new(heap);
    for k in 0..=list.len() {
        text.push_str(&level_text(heap, list, k, profile)?)?;
    }
    Ok(text)
}

/// All levels, or the first refusal.
fn listed(heap: Global, input: &[u8]) -> Result<String, Rejected> {
    if input.len() > MOST_BYTES {
        return Err(Origin::Input.refused(Fault::plain(24)));
    }
    let (first, second) = sheets_of(input);
    let mut list = PassList::new(heap);
    read_schedule(heap, first, &mut list).map_err(|fault| Origin::Schedule.refused(fault))?;
    let profile = heights(heap, second).map_err(|fault| Origin::Profile.refused(fault))?;
    all_levels(heap, &list, &profile).map_err(|fault| Origin::Draw.refused(fault))
}

pub fn printed(heap: Global, input: &[u8]) -> Result<Output, AllocError> {
    match listed(heap, input) {
        Ok(text) => Ok(Output {
            text,
            rejected: None,
        }),
        Err(rejected) => Ok(Output {
            text: rejection_line(heap, &rejected)?,
            rejected: Some(rejected),
        }),
    }
}

/// Puts what is printed into the front of the buffer, if it has all the room that the command asks for.
pub fn write_printed(printed: &Output, out: &mut [u8]) -> Answer {
    if out.len() < ROOM {
        return Err(Fault::plain(23));
    }
    write_text(&printed.text, out)
}
