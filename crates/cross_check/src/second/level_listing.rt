//! Listings: a level drawn at once, its flats in threes, and each line written by the standard library.
use crate::second::drawing::draw;
use crate::second::faults::Fault;
use crate::second::finding::{TurnRecord, turns};
use crate::second::rounding::round;
use crate::second::schedules::PassList;
use crate::second::taps::Taps;
use std::alloc::{AllocError, Global};

const NAMES: &str = "level,place,kind,height\n";

/// The nearest height of one numerator.
pub fn nearest(numerator: i64, scale: u64) -> Result<i64, Fault> {
    let mut heights = [0];
    round(&[numerator], scale, &mut heights)?;
    let [height] = heights;
    Ok(height)
}

fn put_turn(text: &mut String, k: usize, scale: u64, turn: &TurnRecord) -> Result<(), AllocError> {
    let place = turn.place;
    let kind = turn.kind;
    let height = nearest(turn.numerator, scale).unwrap_or(i64::MIN);
    writeln!(text, "{k},{place},{kind},{height}")
}

/// The text of level k, or why it cannot be drawn.
pub fn level_text(
    heap: Global,
    list: &PassList,
    k: usize,
    profile: &[i64],
) -> Result<String, Fault> {
    let mut work = vec![in heap; 0; profile.len()]?;
    let length = draw(heap, list, k, profile, &mut work)?;
    work.truncate(length);
    let scale = u64::try_from(Taps::of_first(heap, list, k)?.sum()).unwrap_or(0);
    let mut text = String::from_str(heap, if k == 0 { NAMES } else { "" })?;
    for turn in turns(heap, &work)?.iter() {
        put_turn(&mut text, k, scale, turn)?;
    }
    Ok(text)
}
