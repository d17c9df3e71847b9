//! Prime tables of schedules.
use crate::bench::Bench;
use crate::inputs::both;
use crate::second::passes::Weights;
use crate::second::prime_tables::{comes_before, is_prime, piled};
use crate::second::taps::Taps;
use crate::tally::Tally;
use primes::tables::PrimeTable;
use scale_space::primes::PrimeCount;
use std::alloc::{AllocError, Global};

const ROUNDS: u32 = 1500;

pub fn run(heap: Global) -> Result<Tally, AllocError> {
    let tally = Tally::counting(heap, "prime tables", "with split triples")?;
    Bench::new(heap, 12, tally).run(ROUNDS, table)
}

/// A table has more primes than there are passes where a triple was split.
fn table(bench: &mut Bench) -> Result<(), AllocError> {
    let both = both(&mut bench.generator);
    let table = PrimeTable::of(&both.schedule);
    let records = table.as_slice();
    let product = product_of(bench.heap(), records)?;
    let taps = Taps::of(bench.heap(), &both.list)?;
    let right = are_primes(records) && are_in_order(records) && product.agree_with(&taps);
    let split = total(records) > both.list.len() as u64;
    bench
        .tally
        .hear_counting(Ok(product.reach()), Ok(taps.reach()), right, split);
    Ok(())
}

fn product_of(heap: Global, records: &[PrimeCount]) -> Result<Taps, AllocError> {
    records.iter().try_fold(Taps::one(heap)?, |taps, record| {
        piled(taps, &Weights::from(record.prime), record.count)
    })
}

fn are_primes(records: &[PrimeCount]) -> bool {
    records.iter().all(|record| record.count > 0 && is_prime(&Weights::from(record.prime)))
}

fn are_in_order(records: &[PrimeCount]) -> bool {
    records.is_sorted_by(|first, second| {
        comes_before(&Weights::from(first.prime), &Weights::from(second.prime))
    })
}

fn total(records: &[PrimeCount]) -> u64 {
    records.iter().fold(0, |total, record| {
        u64::saturating_add(total, u64::from(record.count))
    })
}
