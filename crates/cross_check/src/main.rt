//! Compares the library with a second implementation, which was written apart from it and by other means, on many inputs. For
//! each kind of call it prints how many answers agree, and how many of these are refusals, with their numbers.
#![tactic(auto)]

mod against_command;
mod against_comparing;
mod against_drawing;
mod against_finding;
mod against_listing;
mod against_passes;
mod against_primes;
mod against_rounding;
mod against_schedules;
mod against_sheets;
mod against_smoothing;
mod against_walks;
mod bench;
mod both;
mod command_inputs;
mod generator;
mod grounds;
mod inputs;
mod library;
mod named;
mod report;
mod second;
mod tally;
mod texts;

use anyhow::bail;
use std::alloc::{AllocError, Global};
use tally::Tally;

/// A tally for each kind of call.
fn tallies(heap: Global) -> Result<Vec<Tally>, AllocError> {
    let mut tallies = vec![in heap;
        named::run(heap)?,
        against_passes::run(heap)?,
        against_schedules::run(heap)?,
        against_drawing::run(heap)?,
        against_finding::run_turns(heap)?,
        against_finding::run_crossings(heap)?,
        against_rounding::run(heap)?,
        against_comparing::run(heap)?,
        against_primes::run(heap)?,
        against_smoothing::run(heap)?,
        against_sheets::run_schedules(heap)?,
        against_sheets::run_profiles(heap)?,
        against_sheets::run_writing(heap)?,
        against_walks::run(heap)?,
        against_listing::run_nearest(heap)?,
        against_listing::run(heap)?,
        against_command::run_lines(heap)?,
    ]?;
    tallies.extend(against_command::run(heap)?)?;
    Ok(tallies)
}

fn print_counts(rt: &impl Print, tallies: &[Tally]) -> anyhow::Result<()> {
    for tally in tallies {
        println!(rt; "{tally}")?;
    }
    Ok(())
}

/// Prints the first difference, and fails where there is one.
fn check(rt: &impl Print, tallies: &[Tally]) -> anyhow::Result<()> {
    for tally in tallies {
        if let Some(first) = tally.first {
            let name = &tally.name;
            println!(rt; "{name}: {first}")?;
            bail!("the two implementations differ");
        }
    }
    Ok(())
}

fn main(rt: HostRuntime) -> anyhow::Result<()> {
    let tallies = tallies(rt.alloc())?;
    print_counts(&rt, &tallies)?;
    check(&rt, &tallies)?;
    println!(rt; "all agree")?;
    Ok(())
}
