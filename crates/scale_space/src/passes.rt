//! A smoothing pass.
ghost use Rattle.std.specs.Prelude.{◌≡◌, true};
ghost use Rattle.scale_space.specs.Levels.{Diminishing, Smooths};
ghost use Rattle.scale_space.specs.Passes.{weights, admitted};

use std::fmt;

/// Two or three whole weights, laid on neighbouring samples, first weight first.
#[derive(Clone, Copy, PartialEq, Eq, PartialOrd, Ord, Debug)]
pub enum Pass {
    Pair(u32, u32),
    Triple(u32, u32, u32),
}

impl Pass {
    /// Whether the pass can be trusted on any ground: a pair always, a triple exactly when b² is at least 4ac. Then no
    /// list of whole numbers, however long or large, gains a change of sign, so none gains a turn or a crossing.
    pub fn is_admitted(&self) -> bool
        ensures is { result ≡ admitted self.now }
        ensures diminishing { result ≡ true → Diminishing (weights self.now) }
        ensures smooths { result ≡ true → Smooths (weights self.now) }
    {
        match *self {
            Pass::Pair(_, _) => true,
            Pass::Triple(a, b, c) => 4 * (a as u128 * c as u128) <= b as u128 * b as u128,
        }
    }
}

impl fmt::Display for Pass {
    fn fmt<W: fmt::Write>(&self, f: &mut fmt::Formatter<W>) -> fmt::Result {
        match *self {
            Pass::Pair(a, b) => write!(f, "({a}, {b})"),
            Pass::Triple(a, b, c) => write!(f, "({a}, {b}, {c})"),
        }
    }
}
