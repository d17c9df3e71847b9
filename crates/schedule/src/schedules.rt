//! A schedule: at most 24 passes, each proper, whose scales have a product of at most 2^40. It is held inline, so that no
//! call on it can fail for want of memory.
ghost use Rattle.std.specs.Prelude.{◌≡◌, ◌^◌, ◌≤◌, true};
ghost use Rattle.scale_space.specs.Passes.{product};
ghost use Rattle.fixed_list.specs.Listed.{listed};
ghost use Rattle.schedule.specs.Tests.{all_proper};

use fixed_list::FixedList;
use scale_space::passes::Pass;

pub mod calls;
pub mod reading;

/// The most passes that may stand.
const MOST_PASSES: usize = 24;

#[derive(Clone, Copy, PartialEq)]
pub struct Schedule {
    list: FixedList<Pass, MOST_PASSES>,
    ghost proper: { all_proper (listed list) ≡ true },
    ghost bounded: { product (listed list) ≤ 2 ^ 40 },
}
