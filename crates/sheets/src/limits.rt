//! What no sheet goes beyond.

/// The most bytes of a sheet.
pub const MOST_BYTES: usize = 32_768;
