//! What a crossing of a height is recorded as.
ghost use Rattle.std.specs.Prelude.{◌≡◌};
ghost use Rattle.scale_space.specs.Crossings.{direction_number};

#[derive(Clone, Copy, PartialEq, Eq, Debug)]
pub enum Direction {
    Up = 1,
    Down = 2,
}

impl Direction {
    /// The number by which the direction is known outside.
    pub fn number(self) -> u8
        ensures { result ≡ direction_number self }
    {
        self as u8
    }
}

/// Two samples on opposite sides of a height, with none but samples at that height between them.
#[derive(Clone, Copy, PartialEq, Eq, Debug)]
pub struct Crossing {
    pub from: usize,
    pub to: usize,
    pub direction: Direction,
}
