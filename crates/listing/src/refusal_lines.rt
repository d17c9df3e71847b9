//! The line that tells why nothing was listed.
ghost use Rattle.std.specs.Prelude.{◌≡◌, ◌≤◌, length, Ok};
ghost use Rattle.sheets.specs.Lines.{answer};
ghost use Rattle.listing.specs.Putting.{RoomFor, Penned};
ghost use Rattle.listing.specs.Rejections.{rejection_word, rejection_number, rejected_at, told, rejection_line};

use crate::fields::{Pen, width};
use samples::refusals::Refusal;
use sheets::faults::SheetFault;

/// What was refused, and why.
#[derive(Clone, Copy, Debug, PartialEq, Eq)]
pub enum Rejection {
    /// The input as a whole.
    Input,
    Schedule(SheetFault),
    Profile(SheetFault),
    Draw(Refusal),
}

impl Rejection {
    // By hand, here and in the two below: the cases carry other errors, so no discriminant and no derive gives the answer.
    /// The number by which the refusal is known outside.
    pub fn number(self) -> u8
        ensures { result ≡ rejection_number self }
    {
        match self {
            Rejection::Input => 24,
            Rejection::Schedule(fault) => fault.number(),
            Rejection::Profile(fault) => fault.number(),
            Rejection::Draw(refusal) => refusal.number(),
        }
    }

    /// The line of the sheet that is at fault, counted from 1, or 0 where it is none.
    pub fn line(self) -> usize
        ensures { result ≡ rejected_at self }
    {
        match self {
            Rejection::Input => 0,
            Rejection::Schedule(fault) => fault.line(),
            Rejection::Profile(fault) => fault.line(),
            Rejection::Draw(_) => 0,
        }
    }

    fn word(self) -> &'static [u8]
        ensures bytes { result.now ≡ rejection_word self }
        ensures most { length result.now ≤ 8 }
    {
        match self {
            Rejection::Input => b"input",
            Rejection::Schedule(_) => b"schedule",
            Rejection::Profile(_) => b"profile",
            Rejection::Draw(_) => b"draw",
        }
    }
}

/// Puts the line of a word and two numbers.
fn put_told(word: &[u8], number: u8, line: usize, pen: &mut Pen)
    requires { RoomFor (told word.now number line) pen.old }
    ensures { Penned (told word.now number line) pen.old pen.new }
{
    pen.word(b"\n");
    pen.number(line as u64);
    pen.word(b",");
    pen.number(number as u64);
    pen.word(b",");
    pen.word(word);
}

/// Writes the line of a rejection into the front of `out`, and answers how many bytes it has: never more than 51.
pub fn write_rejection(rejection: Rejection, out: &mut [u8]) -> Result<usize, SheetFault>
    ensures answers { result ≡ (answer (Ok (rejection_line rejection)) out.old).0 }
    ensures writes { out.new ≡ (answer (Ok (rejection_line rejection)) out.old).1 }
    ensures short { length (rejection_line rejection) ≤ 51 }
{
    let word = rejection.word();
    let number = rejection.number();
    let line = rejection.line();
    let size = word.len() + width(number as u64) + width(line as u64) + 3;
    if size > out.len() {
        return Err(SheetFault::BufferTooShort);
    }
    put_told(word, number, line, &mut Pen::new(out, size));
    Ok(size)
}
