//! Rounding: halves, both signs, and the limits of scale and size.
use crate::against_finding::scale;
use crate::bench::Bench;
use crate::generator::Generator;
use crate::inputs::{marked, room_for};
use crate::second::faults::Fault;
use crate::second::rounding;
use crate::tally::Tally;
use samples::rounding::round;
use std::alloc::{AllocError, Global};

const ROUNDS: u32 = 6000;

pub fn run(heap: Global) -> Result<Tally, AllocError> {
    Bench::new(heap, 6, Tally::new(heap, "rounding")?).run(ROUNDS, compare)
}

/// A numerator at a whole height, a half above or below it or one beside, or at the limit of size or one beyond.
pub fn numerator(generator: &mut Generator, scale: u64, once: u64) -> i64 {
    let scale = i64::try_from(scale).unwrap_or(i64::MAX);
    let beside = generator.between(-1, 1);
    if generator.once_in(once) {
        let limit = scale.saturating_mul(100_000);
        let signed = if generator.once_in(2) {
            limit
        } else {
            limit.saturating_neg()
        };
        return signed.saturating_add(beside);
    }
    let whole = scale.saturating_mul(generator.between(-99_999, 99_999));
    let half = scale.wrapping_shr(1);
    match generator.below(3) {
        0 => whole.saturating_add(half).saturating_add(beside),
        1 => whole.saturating_sub(half).saturating_add(beside),
        _ => whole.saturating_add(beside),
    }
}

fn compare(bench: &mut Bench) -> Result<(), AllocError> {
    let heap = bench.heap();
    let generator = &mut bench.generator;
    let scale = scale(generator);
    let count = generator.place(9);
    let places = 0..count;
    let numerators: Vec<i64> = places
        .map(|_| numerator(generator, scale, 12))
        .collect(heap)?;
    let room = room_for(generator, count);
    let mut out = marked(heap, room)?;
    let mut other = marked(heap, room)?;
    let library = round(&numerators, scale, &mut out).map_err(Fault::from);
    let second = rounding::round(&numerators, scale, &mut other);
    bench.tally.hear(library, second, out == other);
    Ok(())
}
