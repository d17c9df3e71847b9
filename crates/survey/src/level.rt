//! Levels, drawn by a schedule or weighed by a single pass.
ghost use Rattle.std.specs.Prelude.{◌<◌, length};

use crate::show::unexpected;
use anyhow::anyhow;
use levels::draw::draw;
use scale_space::passes::Pass;
use schedule::schedules::Schedule;
use std::alloc::Global;

/// Numerators over one scale.
#[derive(Drop)]
pub struct Level {
    pub numerators: Vec<i64>,
    pub scale: u64,
}

impl Level {
    /// Level k of a schedule.
    pub fn draw(
        heap: Global,
        schedule: &Schedule,
        k: usize,
        profile: &[i64],
    ) -> anyhow::Result<Level> {
        let mut numerators = profile.to_vec(heap)?;
        let drawn = draw(schedule, k, profile, &mut numerators).map_err(unexpected)?;
        numerators.truncate(drawn.length);
        Ok(Level {
            numerators,
            scale: drawn.scale,
        })
    }

    /// Lays a pass on every window of the samples, whether it is admitted or not.
    pub fn weigh(heap: Global, pass: Pass, samples: &[i64]) -> anyhow::Result<Level> {
        match pass {
            Pass::Pair(a, b) => Level::lay(heap, &[a, b], samples),
            Pass::Triple(a, b, c) => Level::lay(heap, &[a, b, c], samples),
        }
    }

    fn lay(heap: Global, weights: &[u32], samples: &[i64]) -> anyhow::Result<Level>
        requires { 0 < length weights.now }
    {
        let windows = samples.windows(weights.len());
        let sums = windows.map(|window| {
            dot(weights, window).ok_or_else(|| anyhow!("a weighed sum is too large"))
        });
        Ok(Level {
            numerators: sums.try_collect(heap)?,
            scale: sum(weights),
        })
    }
}

fn dot(weights: &[u32], samples: &[i64]) -> Option<i64> {
    let mut pairs = weights.iter().zip(samples.iter());
    pairs.try_fold(0, |total, (weight, sample)| {
        i64::checked_add(total, i64::from(*weight).checked_mul(*sample)?)
    })
}

fn sum(weights: &[u32]) -> u64 {
    weights.iter().fold(0, |total, weight| {
        u64::saturating_add(total, u64::from(*weight))
    })
}
