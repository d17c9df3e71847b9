//! Drawing: all passes at once, as one list of taps laid on the profile.
use crate::second::faults::{Answer, Fault};
use crate::second::limits::{MOST_HEIGHT, MOST_HEIGHTS, any_beyond};
use crate::second::schedules::PassList;
use crate::second::taps::Taps;
use std::alloc::Global;

/// The largest size of a sample times the scale of a smoother, 2^57.
const MOST_WEIGHED: u128 = 144_115_188_075_855_872;

/// Draws level k into `work` and answers its length; its scale is the sum of the taps of the first k passes.
pub fn draw(heap: Global, list: &PassList, k: usize, profile: &[i64], work: &mut [i64]) -> Answer {
    if k > list.len() {
        return Err(Fault::plain(4));
    }
    if profile.is_empty() || profile.len() > MOST_HEIGHTS {
        return Err(Fault::plain(7));
    }
    if any_beyond(profile, MOST_HEIGHT) {
        return Err(Fault::plain(8));
    }
    let taps = Taps::of_first(heap, list, k)?;
    let reach = taps.reach();
    if profile.len() <= reach {
        return Err(Fault::plain(9));
    }
    if work.len() < profile.len() {
        return Err(Fault::plain(10));
    }
    let length = profile.len() - reach;
    put_windows(&taps, profile, &mut work[..length]);
    work[length..profile.len()].fill(0);
    Ok(length)
}

/// Lays the taps on every window of the samples.
pub fn apply(taps: &Taps, samples: &[i64], out: &mut [i64]) -> Answer {
    let reach = taps.reach();
    if samples.len() <= reach {
        return Err(Fault::plain(9));
    }
    let length = samples.len() - reach;
    if out.len() < length {
        return Err(Fault::plain(10));
    }
    if has_heavy(samples, taps.sum().unsigned_abs()) {
        return Err(Fault::plain(12));
    }
    put_windows(taps, samples, &mut out[..length]);
    Ok(length)
}

/// Lays the taps on one window.
pub fn weigh(taps: &Taps, samples: &[i64]) -> Result<i128, Fault> {
    if samples.len() != taps.len() {
        return Err(Fault::plain(11));
    }
    if has_heavy(samples, taps.sum().unsigned_abs()) {
        return Err(Fault::plain(12));
    }
    Ok(taps.laid_at(samples, 0))
}

// No `any_beyond`: its `most` would be a division here, of a scale that may be 0, and the limit is said of the product.
fn has_heavy(samples: &[i64], scale: u128) -> bool {
    samples.iter().any(|sample| {
        u128::from(sample.unsigned_abs()).saturating_mul(scale) > MOST_WEIGHED
    })
}

/// One number for each place of `out`.
fn put_windows(taps: &Taps, samples: &[i64], out: &mut [i64]) {
    for (place, number) in out.iter_mut().enumerate() {
        *number = i64::try_from(taps.laid_at(samples, place)).unwrap_or(i64::MIN);
    }
}
