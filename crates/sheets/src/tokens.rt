//! The fields of a sheet and the numbers in them.
ghost use Rattle.std.specs.Prelude.{◌≡◌, ℕ, ◌-◌, List, [], refl, if◌then◌else◌, Some, None, Option};
ghost use Rattle.std.specs.Option.{option_map, ok_or};
ghost use Rattle.sheets.specs.declared.faults.SheetFault.TheVariants.{Malformed};
ghost use Rattle.sheets.specs.Numbers.{digit, digits, value, natural, integer, capped, capped_integer};
ghost use Rattle.sheets.specs.Tokens.{TokenOf};

use crate::faults::SheetFault;

fn digit_of(byte: u8) -> Option<u32>
    ensures { result ≡ (if digit byte then Some (byte - 48) else None) }
{
    // A byte taken as a char and matched against char literals is a form that the project fixes here.
    match byte as char {
        '0'..='9' => Some((byte - b'0') as u32),
        _ => None,
    }
}

/// The number that digits write. Past the top of `u32` it stays there, which is out of any range.
fn magnitude(text: &[u8]) -> Option<u32>
    ensures { result ≡ (if digits text.now then Some (capped (value 0 text.now)) else None) }
{
    // Tried with `try_fold`, and the proof of the result did not close.
    let mut n: u32 = 0;
    for byte in text {
        let digit = digit_of(*byte)?;
        n = n.saturating_mul(10).saturating_add(digit);
    }
    Some(n)
}

/// A number that a field may write.
pub trait Numeral: Copy {
    ghost written: { List ℕ → Option Self };

    fn read(text: &[u8]) -> Option<Self>
        ensures { result ≡ written text.now };

    ghost empty: { written [] ≡ None };
}

/// A number without a sign: its first byte decides whether more may follow, since `0` stands alone.
impl Numeral for u32 {
    ghost written = { λ bytes. option_map capped (natural bytes) };

    ghost empty = { refl };

    fn read(text: &[u8]) -> Option<u32> {
        match text {
            [] => None,
            [b'0'] => Some(0),
            [b'0', ..] => None,
            [_, ..] => magnitude(text),
        }
    }
}

/// The same, where a minus may stand before a number above 0.
impl Numeral for i64 {
    ghost written = { λ bytes. option_map capped_integer (integer bytes) };

    ghost empty = { refl };

    fn read(text: &[u8]) -> Option<i64> {
        match text {
            [b'-', rest @ ..] => match u32::read(rest)? {
                0 => None,
                size => Some(-(size as i64)),
            },
            _ => Some(u32::read(text)? as i64),
        }
    }
}

/// The bytes of a field, which borrow the sheet.
// An `Option` would serve, but this is a form that the project fixes here: both cases of a field borrow its bytes.
#[derive(Clone, Copy)]
pub enum Field<'a> {
    Number(&'a [u8]),
    Empty(&'a [u8]),
}

/// A field and the line that it stands in.
#[derive(Clone, Copy)]
pub struct Token<'a> {
    pub field: Field<'a>,
    pub line: usize,
}

impl<'a> Token<'a> {
    pub fn new(text: &'a [u8], line: usize) -> Token<'a>
        ensures { TokenOf result text.now line }
    {
        let field = if text.is_empty() {
            Field::Empty(text)
        } else {
            Field::Number(text)
        };
        Token { field, line }
    }

    /// The number that the field must hold.
    pub fn number<N: Numeral>(self) -> Result<N, SheetFault>
        ensures { (bs : List ℕ) (n : ℕ) → TokenOf self.entry bs n → result ≡ ok_or (N.written bs) (Malformed n) }
    {
        match self.field {
            Field::Number(text) => N::read(text).ok_or(SheetFault::Malformed { line: self.line }),
            Field::Empty(_) => Err(SheetFault::Malformed { line: self.line }),
        }
    }
}
