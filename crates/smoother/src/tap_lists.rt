//! Taps at run time: a list of at most 49, held inline so that showing them cannot fail for want of memory.
ghost use Rattle.std.specs.Prelude.{◌^◌, ◌≤◌, length};
ghost use Rattle.scale_space.specs.Taps.{scale};
ghost use Rattle.fixed_list.specs.Listed.{listed};

use fixed_list::FixedList;

pub mod building;

/// One tap or more, and a sum that no smoother passes.
// That the sum is not 0 is no invariant, since `two(0, 0)` may be made: who needs it says so.
#[derive(Clone, Copy)]
pub struct TapList {
    taps: FixedList<u64, 49>,
    ghost some: { 1 ≤ length (listed taps) },
    ghost light: { scale (listed taps) ≤ 2 ^ 40 },
}
