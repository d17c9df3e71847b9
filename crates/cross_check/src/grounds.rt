//! Profiles to draw levels from, and their sheets.
use crate::both::Both;
use crate::generator::Generator;
use crate::inputs::{both, numbers};
use std::alloc::{AllocError, Global};

/// A schedule in both implementations, and a profile, which is sometimes refused.
#[derive(Drop)]
pub struct Ground {
    pub both: Both,
    pub profile: Vec<i64>,
}

impl Ground {
    pub fn some(generator: &mut Generator) -> Result<Ground, AllocError> {
        let both = both(generator);
        let profile = profile(generator)?;
        Ok(Ground { both, profile })
    }
}

/// Lawful heights: few different ones, for flats, or many.
pub fn lawful(generator: &mut Generator, count: usize) -> Result<Vec<i64>, AllocError> {
    let most: i64 = generator.pick(&[1, 3, 1000, 100_000], 1);
    numbers(generator, count, most.saturating_neg(), most)
}

/// How many heights: mostly some tens.
pub fn count(generator: &mut Generator) -> usize {
    let end = generator.pick(&[3, 12, 60, 120, 120], 12);
    generator.place(end)
}

/// Heights at the limits of length, or with one at or beyond the limits of size.
fn limit(generator: &mut Generator) -> Result<Vec<i64>, AllocError> {
    let end = count(generator);
    let count = generator.pick(&[0, 1, end, end, end, end, end, end, 2048, 2049], end);
    let mut heights = lawful(generator, count)?;
    generator.replace_one(&mut heights, |generator| {
        generator.pick(&[100_000, -100_000, 100_001, -100_001, i64::MIN], 0)
    });
    Ok(heights)
}

fn profile(generator: &mut Generator) -> Result<Vec<i64>, AllocError> {
    if generator.once_in(4) {
        limit(generator)
    } else {
        let count = count(generator);
        lawful(generator, count)
    }
}

/// So many heights that are as far apart as can be, and each a turn.
pub fn alternating(heap: Global, count: usize) -> Result<Vec<i64>, AllocError> {
    let places = 0..count;
    places
        .map(|place| if place % 2 == 0 { -100_000 } else { 100_000 })
        .collect(heap)
}

/// The sheet of a profile.
pub fn profile_text(heap: Global, heights: &[i64]) -> Result<String, AllocError> {
    let mut text = String::from_str(heap, "station,height\n")?;
    for (station, height) in heights.iter().enumerate() {
        writeln!(text, "{station},{height}")?;
    }
    Ok(text)
}
