//! The fields of a line, each put before those that stand, since numbers are written from the back; and how many bytes a
//! number takes.
ghost use Rattle.std.specs.Prelude.{◌≡◌, ◌≤◌, length, decimal};
ghost use Rattle.std.specs.Fmt.{signed_decimal};
ghost use Rattle.listing.specs.Putting.{RoomFor, Penned};

use itoa::write_digits;

// A size with no text made, here and below: to format a number only to count its bytes would do its digits twice.
/// How many digits `n` has.
pub fn width(n: u64) -> usize
    ensures size { result ≡ length (decimal n) }
    ensures most { result ≤ 20 }
{
    n.checked_ilog10().map_or(1, |log| log as usize + 1)
}

/// The same, with the minus of a number below 0.
pub fn signed_width(n: i64) -> usize
    ensures size { result ≡ length (signed_decimal n) }
    ensures most { result ≤ 21 }
{
    let digits = width(n.unsigned_abs());
    if n < 0 { digits + 1 } else { digits }
}

/// A buffer and the place in it before which the next text is put. What stands behind the place stays.
#[derive(Drop)]
pub struct Pen<'a> {
    pub out: &'a mut [u8],
    pub at: usize,
}

impl<'a> Pen<'a> {
    pub fn new(out: &'a mut [u8], at: usize) -> Pen<'a>
        ensures same_reference { result.out.ghost_name ≡ out.entry.ghost_name }
        ensures bytes { result.out.now ≡ out.old }
        ensures place { result.at ≡ at }
    {
        Pen { out, at }
    }

    pub fn word(&mut self, word: &[u8])
        requires { RoomFor word.now self.old }
        ensures { Penned word.now self.old self.new }
    {
        let first = self.at - word.len();
        self.out[first..self.at].copy_from_slice(word);
        self.at = first;
    }

    pub fn number(&mut self, n: u64)
        requires { RoomFor (decimal n) self.old }
        ensures { Penned (decimal n) self.old self.new }
    {
        self.at = write_digits(n, self.out, self.at);
    }

    /// The same with a number that may be below 0.
    pub fn signed(&mut self, n: i64)
        requires { RoomFor (signed_decimal n) self.old }
        ensures { Penned (signed_decimal n) self.old self.new }
    {
        self.number(n.unsigned_abs());
        if n < 0 {
            self.word(b"-");
        }
    }
}
