//! The limits, written down once more: the second implementation takes none of the library's numbers.

/// The largest size of a height, either way of 0.
pub const MOST_HEIGHT: u128 = 100_000;

/// The most heights of a profile.
pub const MOST_HEIGHTS: usize = 2048;

/// The most bytes of a sheet, and of the command's input.
pub const MOST_BYTES: usize = 32_768;

/// The largest scale, 2^40.
pub const MOST_SCALE: u64 = 1_099_511_627_776;

pub fn is_height(number: i128) -> bool {
    number.unsigned_abs() <= MOST_HEIGHT
}

/// Whether the size of any of the samples is above `most`.
pub fn any_beyond(samples: &[i64], most: u128) -> bool {
    samples
        .iter()
        .any(|sample| u128::from(sample.unsigned_abs()) > most)
}
