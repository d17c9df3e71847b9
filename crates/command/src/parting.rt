//! An input parted into its two sheets.
ghost use Rattle.std.specs.Prelude.{◌≡◌, ◌<◌, true, length};
ghost use Rattle.command.specs.Parting.{parted, empty_at};

/// Whether byte `i` ends an empty line: one that follows another line's end, or begins the input.
fn ends_empty_line(input: &[u8], i: usize) -> bool
    requires { i < length input.now }
    ensures { result ≡ empty_at input.now i }
{
    input[i] == b'\n' && (i == 0 || input[i - 1] == b'\n')
}

/// What stands before the first empty line, and what follows it: nothing, where no line is empty.
pub fn part(input: &[u8]) -> (&[u8], &[u8])
    ensures { (result.0.now, result.1.now) ≡ parted true input.now }
{
    match (0..input.len()).find(|&i| ends_empty_line(input, i)) {
        Some(i) => (&input[0..i], &input[i + 1..]),
        None => (input, &input[input.len()..]),
    }
}
