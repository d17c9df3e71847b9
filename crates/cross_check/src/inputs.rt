//! Passes, schedules and lists of numbers to compare on.
use crate::both::{Both, Request};
use crate::generator::Generator;
use std::alloc::{AllocError, Global};

/// How large the weights of a schedule are: small ones let many passes stand, large ones meet the limit of the scale.
pub fn size(generator: &mut Generator) -> u32 {
    generator.pick(&[1, 2, 3, 9, 60, 1001], 1)
}

/// A weight up to `most`, and now and then one at a limit.
pub fn weight(generator: &mut Generator, most: u32) -> u32 {
    if generator.once_in(4) {
        generator.pick(&[0, 0, 0, 0, 0, 0, 0, 1000, 1001, u32::MAX], 0)
    } else {
        generator.up_to(most)
    }
}

/// A middle weight is often large enough for its triple to be admitted.
fn middle(generator: &mut Generator, most: u32) -> u32 {
    let wide = most.saturating_mul(3).min(1000);
    weight(generator, wide)
}

fn pair(generator: &mut Generator, most: u32) -> Request {
    let a = weight(generator, most);
    let b = weight(generator, most);
    Request::Pair(a, b)
}

fn triple(generator: &mut Generator, most: u32) -> Request {
    let a = weight(generator, most);
    let b = middle(generator, most);
    let c = weight(generator, most);
    Request::Triple(a, b, c)
}

fn step(generator: &mut Generator, most: u32) -> Request {
    let q = generator.up_to(most.min(502));
    let p = generator.up_to(q.saturating_add(1));
    Request::Step(p, q)
}

/// A call that adds a pass.
pub fn addition(generator: &mut Generator, most: u32) -> Request {
    match generator.below(5) {
        0 | 1 => pair(generator, most),
        2 | 3 => triple(generator, most),
        _ => step(generator, most),
    }
}

/// A schedule of some passes; refused calls are passed over.
pub fn both(generator: &mut Generator) -> Both {
    let mut both = Both::new(generator.heap);
    let most = size(generator);
    for _ in 0..generator.below(34) {
        let request = addition(generator, most);
        let _ = both.make(&request);
    }
    both
}

/// A list of numbers from `low` to `high`.
pub fn numbers(
    generator: &mut Generator,
    count: usize,
    low: i64,
    high: i64,
) -> Result<Vec<i64>, AllocError> {
    let heap = generator.heap;
    let places = 0..count;
    places.map(|_| generator.between(low, high)).collect(heap)
}

/// A buffer that holds something of its own at each place, so that a place written, or left, is told apart.
pub fn marked(heap: Global, room: usize) -> Result<Vec<i64>, AllocError> {
    let marks = 7_000_000_000_000_000_000i64..;
    marks.take(room).collect(heap)
}

/// Places for so many: exactly enough mostly, sometimes one too few or some more.
pub fn room_for(generator: &mut Generator, count: usize) -> usize {
    match generator.below(6) {
        0 => count.saturating_sub(1),
        1 => count.saturating_add(3),
        2 => generator.place(count.saturating_add(1)),
        _ => count,
    }
}
