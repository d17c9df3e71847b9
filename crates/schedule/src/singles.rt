//! A single pass as a type of its own, by how many weights it has.
ghost use Rattle.std.specs.Prelude.{◌≡◌, true, length};
ghost use Rattle.scale_space.specs.Passes.{weights};
ghost use Rattle.schedule.specs.Tests.{proper};

use scale_space::passes::Pass;

pub mod making;

/// A pass of `N` weights: in range, not all 0, with no common divisor but 1, and admitted.
#[derive(Clone, Copy)]
pub struct Single<const N: usize> {
    pass: Pass,
    ghost stands: { proper pass ≡ true },
    ghost long: { length (weights pass) ≡ N },
}
