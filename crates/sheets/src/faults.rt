//! Why a sheet was not read or written.
ghost use Rattle.std.specs.Prelude.{◌≡◌, Some};
ghost use Rattle.sheets.specs.Faults.{fault_number, fault_line, fault_words};

use std::error::Error;
use std::fmt;

/// What is wrong with a sheet, or with the room for it. Whatever it is, the caller's buffers and schedule stay as they were.
#[derive(Clone, Copy, Debug, PartialEq, Eq)]
pub enum SheetFault {
    TooLong,
    WrongNames,
    Malformed { line: usize },
    Refused { line: usize },
    BufferTooShort,
}

impl SheetFault {
    /// The number by which the fault is known outside.
    pub fn number(self) -> u8
        ensures { result ≡ fault_number self }
    {
        // By hand, since cases carry a line, so no discriminant gives the number.
        match self {
            SheetFault::TooLong => 24,
            SheetFault::WrongNames => 20,
            SheetFault::Malformed { line: _ } => 21,
            SheetFault::Refused { line: _ } => 22,
            SheetFault::BufferTooShort => 23,
        }
    }

    /// The line that is at fault, counted from 1, or 0 where it is none.
    pub fn line(self) -> usize
        ensures { result ≡ fault_line self }
    {
        // By hand, since only two of the cases carry a line.
        match self {
            SheetFault::TooLong => 0,
            SheetFault::WrongNames => 1,
            SheetFault::Malformed { line } | SheetFault::Refused { line } => line,
            SheetFault::BufferTooShort => 0,
        }
    }
}

impl fmt::Display for SheetFault {
    ghost output = { λ fault. Some (fault_words fault) };

    fn fmt<W: fmt::Write>(&self, f: &mut fmt::Formatter<W>) -> fmt::Result {
        match self {
            SheetFault::TooLong => write!(f, "too long"),
            SheetFault::WrongNames => write!(f, "line 1 has the wrong names"),
            SheetFault::Malformed { line } => write!(f, "line {line} is malformed"),
            SheetFault::Refused { line } => write!(f, "line {line} is refused"),
            SheetFault::BufferTooShort => write!(f, "the buffer is too short"),
        }
    }
}

impl Error for SheetFault {}
