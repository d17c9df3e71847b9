//! Levels drawn from profiles, with all that the work buffer then holds.
use crate::bench::Bench;
use crate::both::Both;
use crate::generator::Generator;
use crate::inputs::{both, marked, numbers, room_for};
use crate::second::drawing;
use crate::second::faults::Fault;
use crate::second::taps::Taps;
use crate::tally::Tally;
use levels::draw::draw;
use std::alloc::{AllocError, Global};

const ROUNDS: u32 = 900;

pub fn run(heap: Global) -> Result<Tally, AllocError> {
    Bench::new(heap, 3, Tally::new(heap, "draw")?).run(ROUNDS, profile)
}

fn length(generator: &mut Generator) -> usize {
    if generator.once_in(8) {
        generator.pick(&[0, 0, 0, 1, 1, 1, 2048, 2049], 0)
    } else {
        let end = generator.pick(&[12, 60, 110, 110], 12);
        generator.place(end)
    }
}

/// Heights at the limits too, and now and then one beyond them.
fn heights(generator: &mut Generator, count: usize) -> Result<Vec<i64>, AllocError> {
    let most = match generator.below(3) {
        0 => 2,
        1 => 1000,
        _ => 100_000,
    };
    let mut heights = numbers(generator, count, -most, most)?;
    if generator.once_in(4) {
        generator.replace_one(&mut heights, extreme);
    }
    Ok(heights)
}

fn extreme(generator: &mut Generator) -> i64 {
    generator.pick(
        &[100_000, -100_000, 100_001, -100_001, i64::MAX, i64::MIN],
        0,
    )
}

/// Each level of one schedule, and two beyond the last.
fn profile(bench: &mut Bench) -> Result<(), AllocError> {
    let both = both(&mut bench.generator);
    let count = length(&mut bench.generator);
    let profile = heights(&mut bench.generator, count)?;
    for k in 0..both.list.len().saturating_add(3) {
        let room = if bench.generator.once_in(5) {
            room_for(&mut bench.generator, count)
        } else {
            count
        };
        level(bench, &both, k, &profile, room)?;
    }
    Ok(())
}

fn level(
    bench: &mut Bench,
    both: &Both,
    k: usize,
    profile: &[i64],
    room: usize,
) -> Result<(), AllocError> {
    let heap = bench.heap();
    let mut work = marked(heap, room)?;
    let mut other = marked(heap, room)?;
    let library = draw(&both.schedule, k, profile, &mut work);
    let second = drawing::draw(heap, &both.list, k, profile, &mut other);
    let scale = Taps::of_first(heap, &both.list, k)?.sum();
    let scaled = library.map_or(true, |level| i128::from(level.scale) == scale);
    let length = library.map(|level| level.length).map_err(Fault::from);
    bench.tally.hear(length, second, scaled && work == other);
    Ok(())
}
