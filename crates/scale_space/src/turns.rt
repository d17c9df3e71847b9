//! What a turn of a list of samples is recorded as.
ghost use Rattle.std.specs.Prelude.{◌≡◌};
ghost use Rattle.scale_space.specs.Turns.{kind_number};

/// A ridge has a lower sample on each side, a hollow a higher one.
#[derive(Clone, Copy, PartialEq, Eq, Debug)]
pub enum TurnKind {
    Ridge = 1,
    Hollow = 2,
}

impl TurnKind {
    /// The number by which the kind is known outside.
    pub fn number(self) -> u8
        ensures { result ≡ kind_number self }
    {
        self as u8
    }
}

/// A ridge or a hollow: a flat (a longest run of equal neighbours) whose neighbours lie on one side of it.
#[derive(Clone, Copy, PartialEq, Eq, Debug)]
pub struct Turn {
    pub kind: TurnKind,
    /// The place of the flat's first sample.
    pub place: usize,
    pub numerator: i64,
}
