//! The smoothers of every kind, applied and weighed, against their taps.
use crate::bench::Bench;
use crate::generator::Generator;
use crate::inputs::{both, marked, numbers, room_for};
use crate::second::drawing;
use crate::second::faults::{Answer, Fault};
use crate::second::passes::Weights;
use crate::second::prime_tables::piled;
use crate::second::taps::Taps;
use crate::tally::Tally;
use schedule::schedules::Schedule;
use smoother::apply::apply;
use smoother::binomial::Binomial;
use smoother::interface::Smoother;
use smoother::pile::Pile;
use std::alloc::{AllocError, Global};

const ROUNDS: u32 = 900;
/// 2^57 and one more.
const HEAVY: i64 = 144_115_188_075_855_873;

pub fn run(heap: Global) -> Result<Tally, AllocError> {
    Bench::new(heap, 8, Tally::new(heap, "smoothers")?).run(ROUNDS, smoothers)
}

/// A schedule, a binomial and the pile of the two.
fn smoothers(bench: &mut Bench) -> Result<(), AllocError> {
    let both = both(&mut bench.generator);
    let order = bench.generator.up_to(43);
    let taps = Taps::of(bench.heap(), &both.list)?;
    compare(bench, &both.schedule, &taps)?;
    let binomial = Binomial::new(order);
    let made = binomial.map(|_| 1).map_err(Fault::from);
    bench.tally.hear(made, binomial_answer(order), true);
    let Ok(binomial) = binomial else {
        return Ok(());
    };
    let second = piled(Taps::one(bench.heap())?, &Weights::pair(1, 1), order)?;
    compare(bench, &binomial, &second)?;
    pile(bench, both.schedule, binomial, &taps, &second)
}

fn binomial_answer(order: u32) -> Answer {
    if order > 40 {
        Err(Fault::plain(1))
    } else {
        Ok(1)
    }
}

fn pile_answer(first: &Taps, second: &Taps) -> Answer {
    if first.sum().saturating_mul(second.sum()) > 1_099_511_627_776 {
        return Err(Fault::plain(6));
    }
    if first.reach().saturating_add(second.reach()) > 48 {
        return Err(Fault::plain(15));
    }
    Ok(1)
}

fn pile(
    bench: &mut Bench,
    schedule: Schedule,
    binomial: Binomial,
    first: &Taps,
    second: &Taps,
) -> Result<(), AllocError> {
    let answer = pile_answer(first, second);
    match Pile::new(schedule, binomial) {
        Ok(pile) => {
            bench.tally.hear(Ok(1), answer, true);
            compare(bench, &pile, &first.convolved(second)?)
        }
        Err(refusal) => {
            bench.tally.hear(Err(Fault::from(refusal)), answer, true);
            Ok(())
        }
    }
}

/// Compares one smoother with its taps.
fn compare<S: Smoother>(bench: &mut Bench, smoother: &S, taps: &Taps) -> Result<(), AllocError> {
    let sized = smoother.reach() == taps.reach() && i128::from(smoother.scale()) == taps.sum();
    bench
        .tally
        .hear(Ok(smoother.reach()), Ok(taps.reach()), sized);
    weigh(bench, smoother, taps)?;
    apply_both(bench, smoother, taps)
}

fn window_length(generator: &mut Generator, taps: &Taps) -> usize {
    if generator.once_in(4) {
        generator.place(50)
    } else {
        taps.len()
    }
}

/// Heights, with now and then one that is as large as it may be, or larger by one.
fn samples(generator: &mut Generator, count: usize, taps: &Taps) -> Result<Vec<i64>, AllocError> {
    let mut samples = numbers(generator, count, -100_000, 100_000)?;
    if generator.once_in(4) {
        generator.replace_one(&mut samples, |generator| heavy(generator, taps));
    }
    Ok(samples)
}

/// About 2^57 over the scale, of either sign.
fn heavy(generator: &mut Generator, taps: &Taps) -> i64 {
    let scale = i64::try_from(taps.sum()).unwrap_or(1);
    let most = HEAVY.saturating_sub(1).checked_div(scale).unwrap_or(0);
    let size = most.saturating_add(generator.between(0, 1));
    match generator.below(9) {
        0 => i64::MIN,
        1..=4 => size.saturating_neg(),
        _ => size,
    }
}

fn weigh<S: Smoother>(bench: &mut Bench, smoother: &S, taps: &Taps) -> Result<(), AllocError> {
    let count = window_length(&mut bench.generator, taps);
    let window = samples(&mut bench.generator, count, taps)?;
    let library = smoother.weigh(&window).map(i128::from).map_err(Fault::from);
    let second = drawing::weigh(taps, &window);
    bench.tally.hear_values(library, second, |_| 1);
    Ok(())
}

fn apply_both<S: Smoother>(bench: &mut Bench, smoother: &S, taps: &Taps) -> Result<(), AllocError> {
    let heap = bench.heap();
    let count = bench.generator.place(70);
    let samples = samples(&mut bench.generator, count, taps)?;
    let windows = samples.len().saturating_sub(taps.reach());
    let room = room_for(&mut bench.generator, windows);
    let mut out = marked(heap, room)?;
    let mut other = marked(heap, room)?;
    let library = apply(smoother, &samples, &mut out).map_err(Fault::from);
    let second = drawing::apply(taps, &samples, &mut other);
    bench.tally.hear(library, second, out == other);
    Ok(())
}
