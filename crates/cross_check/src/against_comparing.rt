//! Whether two schedules are the same smoothing: the library by primes, the second implementation by taps as fractions.
use crate::bench::Bench;
use crate::both::{Both, Request};
use crate::generator::Generator;
use crate::second::taps::Taps;
use crate::tally::Tally;
use primes::comparing::{Comparison, compare};
use std::alloc::{AllocError, Global};

const ROUNDS: u32 = 6000;

const MOST_PAIRS: usize = 8;

// All eight are drawn before their count, and a change among none draws too: a list of so many would alter the inputs.
type Pairs = [(u32, u32); MOST_PAIRS];

pub fn run(heap: Global) -> Result<Tally, AllocError> {
    Bench::new(heap, 7, Tally::counting(heap, "compare", "equal")?).run(ROUNDS, two)
}

fn two(bench: &mut Bench) -> Result<(), AllocError> {
    let heap = bench.heap();
    let (x, y) = alike(&mut bench.generator);
    let library = compare(&x.schedule, &y.schedule) == Comparison::Equal;
    let second = Taps::of(heap, &x.list)?.agree_with(&Taps::of(heap, &y.list)?);
    bench.tally.hear_counting(
        Ok(usize::from(library)),
        Ok(usize::from(second)),
        true,
        library,
    );
    Ok(())
}

fn pair(generator: &mut Generator, most: u32) -> (u32, u32) {
    (generator.up_to(most), generator.up_to(most))
}

/// Two schedules of the same pairs, in another order and with other neighbours multiplied into triples; often with one more
/// change, which mostly makes them different.
fn alike(generator: &mut Generator) -> (Both, Both) {
    let most = generator.up_to(4).saturating_add(1);
    let mut pairs = [(1, 1); MOST_PAIRS];
    for spot in pairs.iter_mut() {
        *spot = pair(generator, most);
    }
    let count = generator.place(MOST_PAIRS);
    let x = merged(generator, &pairs, count, 0);
    let turn = generator.place(count);
    if generator.once_in(3) {
        change(generator, &mut pairs, count, most);
    }
    let y = merged(generator, &pairs, count, turn);
    (x, y)
}

fn change(generator: &mut Generator, pairs: &mut Pairs, count: usize, most: u32) {
    let place = generator.place(count);
    if let Some(spot) = pairs.get_mut(place) {
        *spot = pair(generator, most);
    }
}

/// A schedule of the pairs from `turn` on and round, where neighbours are now and then one triple.
fn merged(generator: &mut Generator, pairs: &Pairs, count: usize, turn: usize) -> Both {
    let mut both = Both::new(generator.heap);
    let mut held = None;
    let used = pairs.get(0..count).unwrap_or(pairs);
    for pair in used.iter().skip(turn).chain(used.iter().take(turn)) {
        held = match held {
            None if generator.once_in(2) => Some(*pair),
            None => {
                add_pair(&mut both, *pair);
                None
            }
            Some(first) => {
                add_product(&mut both, first, *pair);
                None
            }
        };
    }
    if let Some(last) = held {
        add_pair(&mut both, last);
    }
    both
}

fn add_pair(both: &mut Both, pair: (u32, u32)) {
    let (a, b) = pair;
    let _ = both.make(&Request::Pair(a, b));
}

fn add_product(both: &mut Both, first: (u32, u32), second: (u32, u32)) {
    let (a, b) = first;
    let (c, d) = second;
    let outer = a.saturating_mul(d).saturating_add(b.saturating_mul(c));
    let _ = both.make(&Request::Triple(a.saturating_mul(c), outer, b.saturating_mul(d)));
}
