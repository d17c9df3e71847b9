//! Writing sheets: the whole text first, with the standard library's numbers, and then the buffer.
use crate::second::faults::{Answer, Fault};
use crate::second::passes::Weights;
use crate::second::schedules::PassList;
use std::alloc::{AllocError, Global};

fn put_pass(text: &mut String, pass: &Weights) -> Result<(), AllocError> {
    match pass {
        Weights::Pair(weights) => {
            let [a, b] = *weights;
            writeln!(text, "2,{a},{b},")
        }
        Weights::Triple(weights) => {
            let [a, b, c] = *weights;
            writeln!(text, "3,{a},{b},{c}")
        }
    }
}

pub fn schedule_text(heap: Global, list: &PassList) -> Result<String, AllocError> {
    let mut text = String::from_str(heap, "taps,a,b,c\n")?;
    for pass in list.as_slice() {
        put_pass(&mut text, pass)?;
    }
    Ok(text)
}

/// Puts the text into the front of the buffer.
pub fn write_text(text: &str, out: &mut [u8]) -> Answer {
    let bytes = text.as_bytes();
    if out.len() < bytes.len() {
        return Err(Fault::plain(23));
    }
    out[..bytes.len()].copy_from_slice(bytes);
    Ok(bytes.len())
}

/// Puts a number at the back of a field, as much of its end as there is room for, and answers where it begins.
pub fn put_decimal(heap: Global, number: i64, field: &mut [u8]) -> Answer {
    let text = number.to_string(heap)?;
    let digits = text.as_bytes();
    let room = field.len();
    let kept = digits.len().min(room);
    field[room - kept..].copy_from_slice(&digits[digits.len() - kept..]);
    room.checked_sub(digits.len()).ok_or(Fault::plain(23))
}
