//! Rounding: floor division written out, with a case for each sign.
use crate::second::faults::{Answer, Fault};
use crate::second::limits::{MOST_HEIGHT, MOST_SCALE, any_beyond};

pub fn is_scale(scale: u64) -> bool {
    scale >= 1 && scale <= MOST_SCALE
}

/// The largest whole number not above n / d, for a d above 0.
fn floor(n: i128, d: i128) -> i128 {
    let cut = n.checked_div(d).unwrap_or(0);
    let rest = n.checked_rem(d).unwrap_or(0);
    if rest < 0 { cut.saturating_sub(1) } else { cut }
}

fn rounded(numerator: i64, scale: u64) -> i128 {
    let scale = i128::from(scale);
    let twice = i128::from(numerator).saturating_mul(2);
    floor(twice.saturating_add(scale), scale.saturating_mul(2))
}

pub fn round(numerators: &[i64], scale: u64, out: &mut [i64]) -> Answer {
    if !is_scale(scale) {
        return Err(Fault::plain(14));
    }
    if out.len() < numerators.len() {
        return Err(Fault::plain(10));
    }
    let most = u128::from(scale).saturating_mul(MOST_HEIGHT);
    if any_beyond(numerators, most) {
        return Err(Fault::plain(12));
    }
    for (height, numerator) in out.iter_mut().zip(numerators.iter()) {
        *height = i64::try_from(rounded(*numerator, scale)).unwrap_or(i64::MIN);
    }
    Ok(numerators.len())
}
