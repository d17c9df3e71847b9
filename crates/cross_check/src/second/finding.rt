//! Turns and crossings: the samples are first made into flats, or those at the height dropped, and then looked at in threes
//! and twos.
use crate::second::faults::{Answer, Fault};
use crate::second::limits::is_height;
use crate::second::rounding::is_scale;
use std::alloc::{AllocError, Global};
use std::fmt;

/// A longest run of equal neighbours: where it begins, and what its samples are.
#[derive(Clone, Copy)]
struct Flat {
    place: usize,
    numerator: i64,
}

#[derive(Clone, Copy, PartialEq, Eq)]
pub enum Kind {
    Ridge,
    Hollow,
}

impl Kind {
    pub fn number(self) -> u8 {
        match self {
            Kind::Ridge => 1,
            Kind::Hollow => 2,
        }
    }
}

impl fmt::Display for Kind {
    fn fmt<W: fmt::Write>(&self, f: &mut fmt::Formatter<W>) -> fmt::Result {
        f.write_str(match self {
            Kind::Ridge => "ridge",
            Kind::Hollow => "hollow",
        })
    }
}

#[derive(Clone, Copy, PartialEq, Eq)]
pub struct TurnRecord {
    pub kind: Kind,
    /// The number by which the kind is known outside.
    pub number: u8,
    pub place: usize,
    pub numerator: i64,
}

#[derive(Clone, Copy, PartialEq, Eq)]
pub enum Way {
    Up,
    Down,
}

impl Way {
    pub fn number(self) -> u8 {
        match self {
            Way::Up => 1,
            Way::Down => 2,
        }
    }
}

#[derive(Clone, Copy, PartialEq, Eq)]
pub struct CrossingRecord {
    pub from: usize,
    pub to: usize,
    pub way: Way,
    /// The number by which the direction is known outside.
    pub number: u8,
}

/// A sample that is not at the height.
#[derive(Clone, Copy)]
struct Aside {
    place: usize,
    above: bool,
}

fn flats_of(heap: Global, samples: &[i64]) -> Result<Vec<Flat>, AllocError> {
    let mut flats = Vec::new(heap);
    let mut last = None;
    for (place, sample) in samples.iter().enumerate() {
        let numerator = *sample;
        if last != Some(numerator) {
            flats.push(Flat { place, numerator })?;
        }
        last = Some(numerator);
    }
    Ok(flats)
}

fn kind_of(before: i64, here: i64, after: i64) -> Option<Kind> {
    if before < here && after < here {
        Some(Kind::Ridge)
    } else if before > here && after > here {
        Some(Kind::Hollow)
    } else {
        None
    }
}

fn turn_of(three: &[Flat]) -> Option<TurnRecord> {
    let [before, flat, after] = three else {
        return None;
    };
    let kind = kind_of(before.numerator, flat.numerator, after.numerator)?;
    Some(TurnRecord {
        kind,
        number: kind.number(),
        place: flat.place,
        numerator: flat.numerator,
    })
}

pub fn turns(heap: Global, samples: &[i64]) -> Result<Vec<TurnRecord>, AllocError> {
    let flats = flats_of(heap, samples)?;
    let threes = flats.windows(3);
    threes.filter_map(|three| turn_of(three)).collect(heap)
}

fn aside_of(place: usize, sample: i64, level: i128) -> Option<Aside> {
    let numerator = i128::from(sample);
    if numerator == level {
        return None;
    }
    let above = numerator > level;
    Some(Aside { place, above })
}

/// The samples that are not at the height, whose numerator is `level`.
fn asides_of(heap: Global, samples: &[i64], level: i128) -> Result<Vec<Aside>, AllocError> {
    let placed = samples.iter().enumerate();
    placed
        .filter_map(|(place, sample)| aside_of(place, *sample, level))
        .collect(heap)
}

fn crossing_of(two: &[Aside]) -> Option<CrossingRecord> {
    let [from, to] = two else {
        return None;
    };
    let way = match (from.above, to.above) {
        (false, true) => Way::Up,
        (true, false) => Way::Down,
        _ => return None,
    };
    Some(CrossingRecord {
        from: from.place,
        to: to.place,
        way,
        number: way.number(),
    })
}

pub fn crossings(
    heap: Global,
    samples: &[i64],
    scale: u64,
    height: i64,
) -> Result<Vec<CrossingRecord>, AllocError> {
    let level = i128::from(height).saturating_mul(i128::from(scale));
    let asides = asides_of(heap, samples, level)?;
    let twos = asides.windows(2);
    twos.filter_map(|two| crossing_of(two)).collect(heap)
}

/// The answer for so many turns and so many table places.
pub fn turns_answer(records: usize, room: usize) -> Answer {
    if records > room {
        Err(Fault::plain(13))
    } else {
        Ok(records)
    }
}

/// The answer for so many crossings of a height and so many table places.
pub fn crossings_answer(scale: u64, height: i64, records: usize, room: usize) -> Answer {
    if !is_scale(scale) || !is_height(i128::from(height)) {
        return Err(Fault::plain(14));
    }
    turns_answer(records, room)
}
