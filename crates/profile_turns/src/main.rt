//! profile-turns: reads a schedule sheet, an empty line and a profile sheet from standard input, and prints the ridges and
//! hollows of every level, or one line that tells why not.
#![tactic(auto)]

ghost use Rattle.std.specs.Prelude.{◌≤◌, length, IfOk};

use command::answering::{MOST_OUTPUT, answer};
use sheets::limits::MOST_BYTES;
use std::io;
use std::io::Read;

/// One byte more than an input may have, so that a longer one is seen to be too long.
const MOST_INPUT: usize = MOST_BYTES + 1;

/// Reads until the input ends or the buffer is full, so that an endless input comes to an end too.
fn read_all(rt: &impl Input, buffer: &mut [u8]) -> io::Result<usize>
    ensures { IfOk result (λ n. n ≤ length buffer.old) }
{
    // `read_to_end` would need a heap, and `read_exact` does not tell how much there was.
    let mut reader = rt.reader();
    let mut size = 0;
    while size < buffer.len() {
        let got = reader.read(&mut buffer[size..])?;
        if got == 0 {
            break;
        }
        size += got;
    }
    Ok(size)
}

/// Prints what the command on bytes answers to what is read.
fn run(rt: &(impl Input + Print), input: &mut [u8], out: &mut [u8]) -> io::Result<()>
    requires { 1178200 ≤ length out.old }
{
    let size = read_all(rt, input)?;
    let Ok(size) = answer(&input[0..size], out) else {
        return unreachable();
    };
    rt.write_all(&out[0..size])
}

/// Room for the longest answer.
fn blank() -> [u8; MOST_OUTPUT] {
    [0; MOST_OUTPUT]
}

fn main(rt: HostRuntime) -> io::Result<()> {
    let mut input = [0; MOST_INPUT];
    let mut out = blank();
    run(&rt, &mut input, &mut out)
}
