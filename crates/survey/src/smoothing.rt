//! One profile through every kind of smoother.
use crate::show::{Row, unexpected};
use schedule::history::{Call, replay};
use schedule::pairs::Pair;
use schedule::triples::Triple;
use smoother::apply::apply;
use smoother::binomial::Binomial;
use smoother::interface::Smoother;
use smoother::pile::Pile;

/// Applies a smoother to the profile and shows what comes out; answers how many numbers.
fn shown<S: Smoother>(
    rt: &impl Print,
    title: &str,
    smoother: &S,
    profile: &[i64],
) -> anyhow::Result<usize> {
    let mut out = [0; 16];
    let count = apply(smoother, profile, &mut out).map_err(unexpected)?;
    let reach = smoother.reach();
    let scale = smoother.scale();
    let values = out.get(0..count).unwrap_or(&[]);
    let row = Row { title, values };
    println!(rt; "{row} over {scale}, reach {reach}")?;
    Ok(count)
}

fn passes(rt: &impl Print, profile: &[i64]) -> anyhow::Result<usize> {
    let pair = Pair::new(1, 1).map_err(unexpected)?;
    let first = shown(rt, "pair (1, 1)", &pair, profile)?;
    let triple = Triple::new(1, 2, 1).map_err(unexpected)?;
    let second = shown(rt, "triple (1, 2, 1)", &triple, profile)?;
    Ok(first.saturating_add(second))
}

fn binomials(rt: &impl Print, profile: &[i64]) -> anyhow::Result<usize> {
    let four = replay(&[Call::AddPair(1, 1); 4]);
    let first = shown(rt, "schedule of (1, 1) four times", &four, profile)?;
    let binomial = Binomial::new(4).map_err(unexpected)?;
    let second = shown(rt, "binomial of order 4", &binomial, profile)?;
    Ok(first.saturating_add(second))
}

fn piles(rt: &impl Print, profile: &[i64]) -> anyhow::Result<usize> {
    let two = replay(&[Call::AddPair(1, 1); 2]);
    let one = Binomial::new(1).map_err(unexpected)?;
    let near = Pile::new(two, one).map_err(unexpected)?;
    let first = shown(rt, "pile of a schedule and a binomial", &near, profile)?;
    let pair = Pair::new(1, 1).map_err(unexpected)?;
    let far = Pile::new(near, pair).map_err(unexpected)?;
    let second = shown(rt, "pile of that pile and a pair", &far, profile)?;
    Ok(first.saturating_add(second))
}

/// Shows all five kinds; answers how many windows were weighed.
pub fn all_kinds(rt: &impl Print, profile: &[i64]) -> anyhow::Result<usize> {
    let of_passes = passes(rt, profile)?;
    let of_binomials = binomials(rt, profile)?;
    let of_piles = piles(rt, profile)?;
    Ok(
        of_passes
            .saturating_add(of_binomials)
            .saturating_add(of_piles),
    )
}
