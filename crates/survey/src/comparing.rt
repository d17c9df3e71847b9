//! Schedules compared.
use crate::show::Passes;
use primes::comparing::{Comparison, compare};
use primes::tables::PrimeTable;
use schedule::history::{Call, replay};
use schedule::schedules::Schedule;

/// A schedule and its prime table.
fn table(rt: &impl Print, schedule: &Schedule) -> anyhow::Result<()> {
    let passes = Passes(schedule);
    print!(rt; "  {passes} has the primes")?;
    for record in PrimeTable::of(schedule).as_slice() {
        let prime = record.prime;
        let count = record.count;
        print!(rt; " {prime} x {count}")?;
    }
    println!(rt; "")?;
    Ok(())
}

/// Compares what two histories leave; answers whether they are equal.
fn verdict(rt: &impl Print, first: &[Call], second: &[Call]) -> anyhow::Result<bool> {
    let x = replay(first);
    let y = replay(second);
    table(rt, &x)?;
    table(rt, &y)?;
    let equal = compare(&x, &y) == Comparison::Equal;
    if equal {
        println!(rt; "    so they are equal: no profile tells them apart")?;
    } else {
        println!(rt; "    so they are different: some profile tells them apart")?;
    }
    Ok(equal)
}

/// Compares some pairs of schedules; answers how many and how many of them are equal.
pub fn some_pairs(rt: &impl Print) -> anyhow::Result<(usize, usize)> {
    let verdicts = [
        verdict(
            rt,
            &[Call::AddTriple(2, 5, 2)],
            &[Call::AddPair(1, 2), Call::AddPair(2, 1)],
        )?,
        verdict(
            rt,
            &[Call::AddTriple(1, 3, 1), Call::AddPair(1, 1)],
            &[Call::AddPair(1, 1), Call::AddTriple(1, 3, 1)],
        )?,
        verdict(rt, &[Call::AddPair(1, 0)], &[])?,
        verdict(
            rt,
            &[Call::AddStep(3, 8)],
            &[Call::AddPair(3, 1), Call::AddPair(1, 3)],
        )?,
        verdict(rt, &[Call::AddTriple(2, 5, 2)], &[Call::AddTriple(1, 3, 1)])?,
    ];
    let equal = verdicts.iter().filter(|same| **same).count();
    Ok((verdicts.len(), equal))
}
