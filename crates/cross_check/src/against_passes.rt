//! Single passes: reduction, admission and diffusion steps.
use crate::bench::Bench;
use crate::generator::Generator;
use crate::inputs::{size, weight};
use crate::second::faults::Fault;
use crate::second::passes::{Weights, reduced_step};
use crate::tally::Tally;
use samples::refusals::Refusal;
use scale_space::passes::Pass;
use schedule::pairs::Pair;
use schedule::reduction::{reduce, reduce_step};
use schedule::triples::Triple;
use std::alloc::{AllocError, Global};

const ROUNDS: u32 = 2000;

pub fn run(heap: Global) -> Result<Tally, AllocError> {
    Bench::new(heap, 1, Tally::new(heap, "passes")?).run(ROUNDS, passes)
}

fn passes(bench: &mut Bench) -> Result<(), AllocError> {
    let generator = &mut bench.generator;
    let most = size(generator);
    pair(&mut bench.tally, generator, most);
    triple(&mut bench.tally, generator, most);
    step(&mut bench.tally, generator);
    Ok(())
}

fn hear(tally: &mut Tally, library: Result<Pass, Refusal>, second: Result<Weights, Fault>) {
    let library = library.map(Weights::from).map_err(Fault::from);
    tally.hear_values(library, second, |weights| weights.as_slice().len());
}

fn pair(tally: &mut Tally, generator: &mut Generator, most: u32) {
    let a = weight(generator, most);
    let b = weight(generator, most);
    let second = Weights::pair(a, b).reduced();
    hear(tally, reduce(Pass::Pair(a, b)), second);
    hear(tally, Pair::new(a, b).map(|pair| pair.pass()), second);
}

fn triple(tally: &mut Tally, generator: &mut Generator, most: u32) {
    let a = weight(generator, most);
    let b = weight(generator, most);
    let c = weight(generator, most);
    let second = Weights::triple(a, b, c).reduced();
    hear(tally, reduce(Pass::Triple(a, b, c)), second);
    hear(
        tally,
        Triple::new(a, b, c).map(|triple| triple.pass()),
        second,
    );
}

/// The limits of p and q, 0 to q and 1 to 500, are often met and passed.
fn step(tally: &mut Tally, generator: &mut Generator) {
    let q = match generator.below(5) {
        0 => 500,
        1 => 501,
        2 => generator.up_to(3),
        _ => generator.up_to(500),
    };
    let half = q / 2;
    let p = match generator.below(6) {
        0 => q.saturating_add(1),
        1 => half,
        2 => half + 1,
        3 => q,
        _ => generator.up_to(half),
    };
    hear(tally, reduce_step(p, q), reduced_step(p, q));
}
