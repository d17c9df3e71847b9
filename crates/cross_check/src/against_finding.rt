//! Turns and crossings, with all that the tables then hold.
use crate::bench::Bench;
use crate::generator::Generator;
use crate::inputs::{numbers, room_for};
use crate::second::faults::{Answer, Fault};
use crate::second::finding;
use crate::second::finding::{crossings_answer, turns_answer};
use crate::tally::Tally;
use samples::{crossings, turns};
use scale_space::crossings::{Crossing, Direction};
use scale_space::turns::{Turn, TurnKind};
use std::alloc::{AllocError, Global};

const ROUNDS: u32 = 6000;
/// What a table place holds before the call.
const TURN: Turn = Turn {
    kind: TurnKind::Hollow,
    place: 77,
    numerator: 77,
};

const CROSSING: Crossing = Crossing {
    from: 77,
    to: 78,
    direction: Direction::Down,
};

pub fn run_turns(heap: Global) -> Result<Tally, AllocError> {
    Bench::new(heap, 4, Tally::new(heap, "turns")?).run(ROUNDS, compare_turns)
}

pub fn run_crossings(heap: Global) -> Result<Tally, AllocError> {
    Bench::new(heap, 5, Tally::new(heap, "crossings")?).run(ROUNDS, compare_crossings)
}

// Not one function with `compare_crossings`: that one draws a scale and a height first, and hands them to all that it calls.
fn compare_turns(bench: &mut Bench) -> Result<(), AllocError> {
    let samples = samples(&mut bench.generator, 0)?;
    let records = finding::turns(bench.heap(), &samples)?;
    let room = room_for(&mut bench.generator, records.len());
    let mut table = vec![in bench.heap(); TURN; room]?;
    let library = turns::find(&samples, &mut table);
    let second = turns_answer(records.len(), room);
    let same = begins_with(&table, TURN, &second, &records);
    bench.tally.hear(library.map_err(Fault::from), second, same);
    Ok(())
}

fn compare_crossings(bench: &mut Bench) -> Result<(), AllocError> {
    let scale = scale(&mut bench.generator);
    let height = height(&mut bench.generator);
    let level = i64::try_from(scale).unwrap_or(1).saturating_mul(height);
    let samples = samples(&mut bench.generator, level)?;
    let records = finding::crossings(bench.heap(), &samples, scale, height)?;
    let room = room_for(&mut bench.generator, records.len());
    let mut table = vec![in bench.heap(); CROSSING; room]?;
    let library = crossings::find(&samples, scale, height, &mut table);
    let second = crossings_answer(scale, height, records.len(), room);
    let same = begins_with(&table, CROSSING, &second, &records);
    bench.tally.hear(library.map_err(Fault::from), second, same);
    Ok(())
}

/// Samples near a number, so that neighbours are often equal and often at the number itself; sometimes with the largest and
/// the smallest that there are.
fn samples(generator: &mut Generator, near: i64) -> Result<Vec<i64>, AllocError> {
    let count = generator.place(22);
    let around = generator.between(0, 3);
    let low = near.saturating_sub(around);
    let high = near.saturating_add(around);
    let mut samples = numbers(generator, count, low, high)?;
    if generator.once_in(5) {
        generator.replace_one(&mut samples, extreme);
    }
    Ok(samples)
}

fn extreme(generator: &mut Generator) -> i64 {
    if generator.once_in(2) {
        i64::MIN
    } else {
        i64::MAX
    }
}

pub fn scale(generator: &mut Generator) -> u64 {
    if generator.once_in(3) {
        generator.pick(&[0, 1_099_511_627_776, 1_099_511_627_777, u64::MAX], 0)
    } else {
        let most = generator.pick(&[9, 9, 1_099_511_627_776], 9);
        generator.below(most).saturating_add(1)
    }
}

fn height(generator: &mut Generator) -> i64 {
    if generator.once_in(3) {
        generator.pick(&[100_000, -100_000, 100_001, -100_001], 0)
    } else {
        let most = generator.pick(&[2, 2, 100_000], 2);
        generator.around(most)
    }
}

/// Whether a table begins with the records, unless they are refused, and is otherwise as it was.
fn begins_with<T: Copy + PartialEq, R: From<T> + PartialEq + Drop>(
    table: &[T],
    before: T,
    answer: &Answer,
    records: &[R],
) -> bool {
    let found = answer.unwrap_or(0);
    table
        .iter()
        .zip(records.iter())
        .take(found)
        .all(|(place, record)| R::from(*place) == *record)
        && table.iter().skip(found).all(|place| *place == before)
}
