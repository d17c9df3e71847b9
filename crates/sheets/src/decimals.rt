//! Numbers written into a field from its back.
ghost use Rattle.std.specs.Prelude.{◌≡◌};
ghost use Rattle.sheets.specs.Writing.{placed, fitted};

use crate::faults::SheetFault;
use itoa::{Buffer, Integer};

/// Puts the text of `n` at the end of `field`, and answers the place of its first byte. Where the field is too short it
/// holds the end of the text.
pub fn put_number<I: Integer>(n: I, field: &mut [u8]) -> Result<usize, SheetFault>
    ensures place { result ≡ placed (I.text n) field.old }
    ensures bytes { field.new ≡ fitted (I.text n) field.old }
{
    let mut buffer = Buffer::new();
    let text = buffer.format(n).as_bytes();
    let size = text.len().min(field.len());
    let at = field.len() - size;
    field[at..].copy_from_slice(&text[text.len() - size..]);
    if size < text.len() {
        return Err(SheetFault::BufferTooShort);
    }
    Ok(at)
}
