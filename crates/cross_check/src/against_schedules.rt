//! Histories of calls on a schedule.
use crate::bench::Bench;
use crate::both::{Both, Request, are_same};
use crate::generator::Generator;
use crate::inputs::{addition, both, size};
use crate::tally::Tally;
use schedule::history::{Call, replay};
use std::alloc::{AllocError, Global};

const ROUNDS: u32 = 300;

const CALLS: u32 = 45;

pub fn run(heap: Global) -> Result<Tally, AllocError> {
    Bench::new(heap, 2, Tally::new(heap, "schedules")?).run(ROUNDS, history)
}

fn request(generator: &mut Generator, most: u32) -> Request {
    match generator.below(12) {
        0 => Request::Join(both(generator)),
        1 => Request::Withdraw(generator.place(26)),
        2 => Request::Withdraw(generator.place(6)),
        _ => addition(generator, most),
    }
}

/// After each call the answers and what stands are compared, and at the end what the history, replayed, leaves standing.
fn history(bench: &mut Bench) -> Result<(), AllocError> {
    let mut both = Both::new(bench.heap());
    let mut calls = Vec::new(bench.heap());
    let most = size(&mut bench.generator);
    for _ in 0..CALLS {
        let request = request(&mut bench.generator, most);
        let (library, second) = both.make(&request);
        bench.tally.hear(library, second, both.agree());
        calls.push(Call::from(&request))?;
    }
    let replayed = replay(&calls);
    let same = are_same(&replayed, &both.list);
    bench
        .tally
        .hear(Ok(replayed.len()), Ok(both.list.len()), same);
    Ok(())
}
