//! Listings of levels, with all that the buffer then holds, and the nearest heights in them.
use crate::against_finding::scale;
use crate::against_rounding::numerator;
use crate::bench::Bench;
use crate::grounds::Ground;
use crate::second;
use crate::second::faults::{Answer, Fault};
use crate::second::level_listing::level_text;
use crate::second::writing::write_text;
use crate::tally::Tally;
use levels::walks::Walk;
use listing::listings::{list, list_level};
use samples::rounding::round_one;
use std::alloc::{AllocError, Global};

const ROUNDS: u32 = 250;

const NUMERATORS: u32 = 6000;

/// What the second implementation lists of a level, or why it does not.
type Listing = Result<String, Fault>;

pub fn run(heap: Global) -> Result<Tally, AllocError> {
    Bench::new(heap, 13, Tally::new(heap, "listings")?).run(ROUNDS, listings)
}

fn listings(bench: &mut Bench) -> Result<(), AllocError> {
    let ground = Ground::some(&mut bench.generator)?;
    list_levels(bench, &ground)?;
    list_walk(bench, &ground)
}

/// Exactly enough places, one too few, and some more.
fn rooms(listing: &Listing) -> [usize; 3] {
    let enough = listing.as_ref().map_or(40, |text| text.len());
    [enough, enough.saturating_sub(1), enough.saturating_add(7)]
}

fn put_listing(listing: &Listing, out: &mut [u8]) -> Answer {
    let text = listing.as_ref().map_err(|fault| *fault)?;
    write_text(text, out)
}

/// Lets the library list what the second implementation lists too, in each of the rooms.
fn compare<E: Drop, F: Fn(&mut [u8]) -> Result<usize, E>>(
    bench: &mut Bench,
    listing: &Listing,
    list: F,
) -> Result<(), AllocError>
where
    Fault: From<E>,
    requires { F.IsAlwaysCallable list }
{
    for room in rooms(listing) {
        let mut out = vec![in bench.heap(); b'#'; room]?;
        let mut other = vec![in bench.heap(); b'#'; room]?;
        let library = list(&mut out).map_err(Fault::from);
        let second = put_listing(listing, &mut other);
        bench.tally.hear(library, second, out == other);
    }
    Ok(())
}

/// Each level of a schedule, and one beyond the last.
fn list_levels(bench: &mut Bench, ground: &Ground) -> Result<(), AllocError> {
    let both = &ground.both;
    for k in 0..both.list.len().saturating_add(2) {
        let listing = level_text(bench.heap(), &both.list, k, &ground.profile);
        compare(bench, &listing, |out| {
            list_level(&both.schedule, k, &ground.profile, out)
        })?;
    }
    Ok(())
}

/// Each level again, as a walk comes to it.
fn list_walk(bench: &mut Bench, ground: &Ground) -> Result<(), AllocError> {
    let passes = &ground.both.list;
    let Ok(mut walk) = Walk::new(&ground.both.schedule, passes.len(), &ground.profile) else {
        return Ok(());
    };
    for k in 0..=passes.len() {
        let listing = level_text(bench.heap(), passes, k, &ground.profile);
        compare(bench, &listing, |out| list(&walk, out))?;
        walk.step();
    }
    Ok(())
}

/// One height for one numerator.
pub fn run_nearest(heap: Global) -> Result<Tally, AllocError> {
    Bench::new(heap, 14, Tally::new(heap, "nearest")?).run(NUMERATORS, nearest)
}

fn nearest(bench: &mut Bench) -> Result<(), AllocError> {
    let scale = scale(&mut bench.generator);
    let numerator = numerator(&mut bench.generator, scale, 6);
    let library = round_one(numerator, scale).map_err(Fault::from);
    let second = second::level_listing::nearest(numerator, scale);
    bench
        .tally
        .hear_values(library, second, |height| height.unsigned_abs() as usize);
    Ok(())
}
