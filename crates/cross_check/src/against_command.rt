//! The whole command, with all that the buffer then holds, and the lines of its refusals.
use crate::bench::Bench;
use crate::command_inputs::{SHORT, input, large};
use crate::generator::Generator;
use crate::inputs::room_for;
use crate::second::faults::{Answer, Fault};
use crate::second::whole_command::{
    Origin, Output, ROOM, Rejected, printed, rejection_line, write_printed,
};
use crate::second::writing::write_text;
use crate::tally::Tally;
use crate::texts::stretched;
use command::answering::answer;
use listing::refusal_lines::{Rejection, write_rejection};
use samples::refusals::Refusal;
use sheets::faults::SheetFault;
use std::alloc::{AllocError, Global};

const ROUNDS: u32 = 3000;

const LINES: u32 = 2000;
/// The places of each buffer, some more than the command asks for.
const PLACES: usize = 1_178_300;
/// The length of the line of names, with which each listing begins.
const NAMES: usize = 24;

/// The refusals of a draw, with their numbers.
const REFUSALS: [(Refusal, u8); 15] = [
    (Refusal::OutOfRange, 1),
    (Refusal::AllZero, 2),
    (Refusal::NotAdmitted, 3),
    (Refusal::NoSuchPlace, 4),
    (Refusal::TooManyPasses, 5),
    (Refusal::ScaleTooLarge, 6),
    (Refusal::ProfileLength, 7),
    (Refusal::HeightOutOfRange, 8),
    (Refusal::TooFewSamples, 9),
    (Refusal::BufferTooShort, 10),
    (Refusal::WindowLength, 11),
    (Refusal::SampleTooLarge, 12),
    (Refusal::TableTooShort, 13),
    (Refusal::ScaleOrHeight, 14),
    (Refusal::ReachTooLong, 15),
];

/// A buffer for each implementation, which all calls write over.
#[derive(Drop)]
struct Buffers {
    library: Vec<u8>,
    second: Vec<u8>,
}

impl Buffers {
    fn new(heap: Global) -> Result<Buffers, AllocError> {
        Ok(Buffers {
            library: vec![in heap; b'#'; PLACES]?,
            second: vec![in heap; b'#'; PLACES]?,
        })
    }

    /// Both answers in so many places of the buffers, and whether the buffers are then the same.
    fn ask(&mut self, input: &[u8], printed: &Output, room: usize) -> (Answer, Answer, bool) {
        let library = in_front(&mut self.library, room, |out| {
            answer(input, out).map_err(Fault::from)
        });
        let second = in_front(&mut self.second, room, |out| write_printed(printed, out));
        (library, second, self.are_same())
    }

    /// All places are looked at, without stopping at a difference, which is faster by far.
    fn are_same(&self) -> bool {
        let pairs = self.library.iter().zip(self.second.iter());
        let bits = pairs.fold(0, |bits, (a, b)| bits | (*a ^ *b));
        bits == 0 && self.library.len() == self.second.len()
    }
}

/// The answer of a call with so many places of a buffer.
fn in_front<F: FnOnce(&mut [u8]) -> Answer>(buffer: &mut [u8], room: usize, call: F) -> Answer
    requires { F.IsAlwaysCallable call }
{
    let out = buffer.get_mut(0..room).ok_or(Fault::plain(0))?;
    call(out)
}

/// A tally for each kind of answer.
#[derive(Drop)]
struct Tallies {
    listings: Tally,
    input: Tally,
    schedule: Tally,
    profile: Tally,
    draw: Tally,
    short: Tally,
}

impl Tallies {
    fn new(heap: Global) -> Result<Tallies, AllocError> {
        Ok(Tallies {
            listings: Tally::counting(heap, "command, listings", "with turns")?,
            input: Tally::new(heap, "command, input refused")?,
            schedule: Tally::new(heap, "command, schedule refused")?,
            profile: Tally::new(heap, "command, profile refused")?,
            draw: Tally::new(heap, "command, draw refused")?,
            short: Tally::new(heap, "command, buffer too short")?,
        })
    }

    fn of(&mut self, origin: Origin) -> &mut Tally {
        match origin {
            Origin::Input => &mut self.input,
            Origin::Schedule => &mut self.schedule,
            Origin::Profile => &mut self.profile,
            Origin::Draw => &mut self.draw,
        }
    }

    /// A refusal counts as one where the library prints its line.
    fn hear(&mut self, printed: &Output, library: Answer, second: Answer, same: bool) {
        let Some(rejected) = printed.rejected else {
            let turns = printed.text.len() > NAMES;
            self.listings.hear_counting(library, second, same, turns);
            return;
        };
        let refusal = Err(rejected.fault);
        let told = if same && library == second {
            refusal
        } else {
            library
        };
        self.of(rejected.origin).hear(told, refusal, same);
    }

    fn in_order(self) -> [Tally; 6] {
        let Tallies {
            listings,
            input,
            schedule,
            profile,
            draw,
            short,
        } = self;
        [listings, input, schedule, profile, draw, short]
    }
}

/// All that a comparison of the command works with.
#[derive(Drop)]
struct CommandBench {
    generator: Generator,
    tallies: Tallies,
    buffers: Buffers,
}

impl CommandBench {
    fn new(heap: Global) -> Result<CommandBench, AllocError> {
        Ok(CommandBench {
            generator: Generator::new(heap, 16),
            tallies: Tallies::new(heap)?,
            buffers: Buffers::new(heap)?,
        })
    }

    /// One input, with room and in too short a buffer.
    fn compare(&mut self, input: &[u8]) -> Result<(), AllocError> {
        let printed = printed(self.generator.heap, input)?;
        let room = self.generator.pick(&[ROOM, PLACES], ROOM);
        let (library, second, same) = self.buffers.ask(input, &printed, room);
        self.tallies.hear(&printed, library, second, same);
        let short = self.short(printed.text.len());
        let (library, second, same) = self.buffers.ask(input, &printed, short);
        self.tallies.short.hear(library, second, same);
        Ok(())
    }

    /// Too few places: none, one too few, or enough for the text and still too few.
    fn short(&mut self, enough: usize) -> usize {
        let most = ROOM - 1;
        self.generator.pick(&[0, enough, most], 0).min(most)
    }
}

pub fn run(heap: Global) -> Result<[Tally; 6], AllocError> {
    let mut bench = CommandBench::new(heap)?;
    for text in SHORT.iter() {
        bench.compare(text.as_bytes())?;
    }
    compare_long(heap, &mut bench)?;
    compare_large(heap, &mut bench)?;
    for _ in 0..ROUNDS {
        let input = input(&mut bench.generator)?;
        bench.compare(&input)?;
    }
    Ok(bench.tallies.in_order())
}

/// Inputs about as long as one may be.
fn compare_long(heap: Global, bench: &mut CommandBench) -> Result<(), AllocError> {
    for bytes in 32_766..32_771 {
        let first = stretched(heap, "taps,a,b,c\n2,1,", ",\n\nstation,height\n", bytes)?;
        bench.compare(&first)?;
        let second = stretched(heap, "taps,a,b,c\n\nstation,height\n0,", "\n", bytes)?;
        bench.compare(&second)?;
        let cut = stretched(heap, "taps,a,b,c\n\nstation,height\n0,1\n", "", bytes)?;
        bench.compare(&cut)?;
    }
    Ok(())
}

/// As many stations and passes as there may be, and some more; all turns stay with the first pass, and none with the second.
fn compare_large(heap: Global, bench: &mut CommandBench) -> Result<(), AllocError> {
    for stations in 2047..2050 {
        for passes in 23..26 {
            let kept = large(heap, "2,1,0,\n", passes, stations)?;
            bench.compare(kept.as_bytes())?;
            let lost = large(heap, "2,1,1,\n", passes, stations)?;
            bench.compare(lost.as_bytes())?;
        }
    }
    Ok(())
}

/// Refusals of all kinds, and their lines.
pub fn run_lines(heap: Global) -> Result<Tally, AllocError> {
    Bench::new(heap, 17, Tally::new(heap, "refusal lines")?).run(LINES, line)
}

fn line(bench: &mut Bench) -> Result<(), AllocError> {
    let heap = bench.heap();
    let (rejection, rejected) = refusal(&mut bench.generator);
    let line = rejection_line(heap, &rejected)?;
    let room = room_for(&mut bench.generator, line.len());
    let mut out = vec![in heap; b'#'; room]?;
    let mut other = vec![in heap; b'#'; room]?;
    let library = write_rejection(rejection, &mut out).map_err(Fault::from);
    let second = write_text(&line, &mut other);
    let same = out == other
        && rejection.number() == rejected.fault.number
        && rejection.line() == rejected.fault.line;
    bench.tally.hear(library, second, same);
    Ok(())
}

/// A refusal in the words of the library and of the second implementation.
fn refusal(generator: &mut Generator) -> (Rejection, Rejected) {
    let (of_sheet, fault) = sheet_fault(generator);
    let (cause, number) = generator.pick(&REFUSALS, (Refusal::OutOfRange, 1));
    match generator.below(4) {
        0 => (Rejection::Input, Origin::Input.refused(Fault::plain(24))),
        1 => (
            Rejection::Schedule(of_sheet),
            Origin::Schedule.refused(fault),
        ),
        2 => (Rejection::Profile(of_sheet), Origin::Profile.refused(fault)),
        _ => (
            Rejection::Draw(cause),
            Origin::Draw.refused(Fault::plain(number)),
        ),
    }
}

fn sheet_fault(generator: &mut Generator) -> (SheetFault, Fault) {
    let end = generator.pick(&[12, 120, 33_000, u64::MAX], 12);
    let line = generator.below(end) as usize;
    match generator.below(5) {
        0 => (SheetFault::TooLong, Fault::plain(24)),
        1 => (
            SheetFault::WrongNames,
            Fault {
                number: 20,
                line: 1,
            },
        ),
        2 => (SheetFault::Malformed { line }, Fault { number: 21, line }),
        3 => (SheetFault::Refused { line }, Fault { number: 22, line }),
        _ => (SheetFault::BufferTooShort, Fault::plain(23)),
    }
}
