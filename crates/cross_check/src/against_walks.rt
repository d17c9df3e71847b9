//! Walks up the levels of a schedule, with all that they show of each level.
use crate::bench::Bench;
use crate::grounds::Ground;
use crate::second::drawing;
use crate::second::faults::{Answer, Fault};
use crate::second::taps::Taps;
use crate::tally::Tally;
use levels::draw::draw;
use levels::walks::Walk;
use std::alloc::{AllocError, Global};

const ROUNDS: u32 = 700;

pub fn run(heap: Global) -> Result<Tally, AllocError> {
    Bench::new(heap, 15, Tally::new(heap, "walks")?).run(ROUNDS, walks)
}

fn walks(bench: &mut Bench) -> Result<(), AllocError> {
    let ground = Ground::some(&mut bench.generator)?;
    let last = bench
        .generator
        .place(ground.both.list.len().saturating_add(2));
    step_up(bench, &ground, last)?;
    let steps = bench.generator.place(last.saturating_add(1));
    climb_up(bench, &ground, last, steps)
}

/// The second implementation's answer for level k, and the numbers that it draws.
fn drawn(heap: Global, ground: &Ground, k: usize) -> Result<(Answer, Vec<i64>), AllocError> {
    let mut work = vec![in heap; 0; ground.profile.len()]?;
    let answer = drawing::draw(heap, &ground.both.list, k, &ground.profile, &mut work);
    Ok((answer, work))
}

/// One step for each level, and one more, which must change nothing. A walk may set out exactly where its last level can be
/// drawn.
fn step_up(bench: &mut Bench, ground: &Ground, last: usize) -> Result<(), AllocError> {
    let (answer, _) = drawn(bench.heap(), ground, last)?;
    let second = answer.map(|_| last);
    match Walk::new(&ground.both.schedule, last, &ground.profile) {
        Ok(walk) => {
            bench.tally.hear(Ok(last), second, true);
            step_through(bench, ground, walk, last)
        }
        Err(refusal) => {
            bench.tally.hear(Err(Fault::from(refusal)), second, true);
            Ok(())
        }
    }
}

fn step_through(
    bench: &mut Bench,
    ground: &Ground,
    mut walk: Walk,
    last: usize,
) -> Result<(), AllocError> {
    here(bench, ground, &walk, 0, true)?;
    for k in 0..=last {
        let right = walk.step() == (k < last);
        let level = k.saturating_add(1).min(last);
        here(bench, ground, &walk, level, right)?;
    }
    Ok(())
}

/// Some steps, and then all the way up.
fn climb_up(
    bench: &mut Bench,
    ground: &Ground,
    last: usize,
    steps: usize,
) -> Result<(), AllocError> {
    let Ok(mut walk) = Walk::new(&ground.both.schedule, last, &ground.profile) else {
        return Ok(());
    };
    for _ in 0..steps {
        walk.step();
    }
    walk.climb();
    here(bench, ground, &walk, last, true)?;
    let right = !walk.step();
    here(bench, ground, &walk, last, right)
}

/// The walk must have come to level k, which is compared with the one drawn by each implementation.
fn here(
    bench: &mut Bench,
    ground: &Ground,
    walk: &Walk,
    k: usize,
    right: bool,
) -> Result<(), AllocError> {
    let heap = bench.heap();
    let (second, work) = drawn(heap, ground, k)?;
    let scale = Taps::of_first(heap, &ground.both.list, k)?.sum();
    let same = walk.level() == k
        && i128::from(walk.scale()) == scale
        && work.starts_with(walk.numerators())
        && is_drawn(heap, ground, walk, k)?;
    bench
        .tally
        .hear(Ok(walk.numerators().len()), second, right && same);
    Ok(())
}

fn is_drawn(heap: Global, ground: &Ground, walk: &Walk, k: usize) -> Result<bool, AllocError> {
    let mut work = vec![in heap; 0; ground.profile.len()]?;
    let drawn = draw(&ground.both.schedule, k, &ground.profile, &mut work);
    Ok(drawn.is_ok_and(|drawn| {
        drawn.length == walk.numerators().len()
            && drawn.scale == walk.scale()
            && work.starts_with(walk.numerators())
    }))
}
