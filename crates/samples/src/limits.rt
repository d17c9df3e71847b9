//! The limits of scales, heights and profiles.
ghost use Rattle.std.specs.Prelude.{◌≡◌};
ghost use Rattle.samples.specs.Answers.{scale_lawful, height_lawful, all_within};

/// The largest scale of a level, a schedule or a smoother.
pub const LARGEST_SCALE: u64 = 1 << 40;

/// The largest height in decimetres, above and below 0.
pub const LARGEST_HEIGHT: u64 = 100_000;

/// The most heights of a profile.
pub const MOST_HEIGHTS: usize = 2048;

/// Whether a level may have this scale.
pub fn is_scale(scale: u64) -> bool
    ensures { result ≡ scale_lawful scale }
{
    (1..=LARGEST_SCALE).contains(&scale)
}

/// Whether this is a height in range.
pub fn is_height(height: i64) -> bool
    ensures { result ≡ height_lawful height }
{
    height.unsigned_abs() <= LARGEST_HEIGHT
}

/// Whether none of the samples is larger than the limit, above or below 0.
pub fn are_within(samples: &[i64], limit: u64) -> bool
    ensures { result ≡ all_within limit samples.now }
{
    samples.iter().all(|sample| sample.unsigned_abs() <= limit)
}
