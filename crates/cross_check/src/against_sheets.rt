//! Sheets read and written, with all that the schedule or the buffer then holds.
use crate::bench::Bench;
use crate::both::Both;
use crate::generator::Generator;
use crate::inputs::{both, marked, room_for};
use crate::second::faults::Fault;
use crate::second::{reading, writing};
use crate::tally::Tally;
use crate::texts::{long_profile, profile_sheet, schedule_sheet, stretched};
use schedule::schedules::Schedule;
use sheets::decimals::put_number;
use sheets::profiles::read_profile;
use sheets::schedule_sheets::read_schedule;
use sheets::writing::write_schedule;
use std::alloc::{AllocError, Global};

const ROUNDS: u32 = 6000;

const WRITTEN: u32 = 1500;

pub fn run_schedules(heap: Global) -> Result<Tally, AllocError> {
    let mut bench = Bench::new(heap, 9, Tally::new(heap, "schedule sheets")?);
    let before = both(&mut bench.generator);
    bench.rounds(ROUNDS, |bench| {
        let sheet = schedule_sheet(&mut bench.generator)?;
        read_schedules(bench, &before, &sheet)
    })?;
    for bytes in 32_766..32_771 {
        let sheet = stretched(heap, "taps,a,b,c\n2,1,", ",\n", bytes)?;
        read_schedules(&mut bench, &before, &sheet)?;
    }
    Ok(bench.tally)
}

/// Both read a sheet over the same schedule, which a refusal leaves as it was.
fn read_schedules(bench: &mut Bench, before: &Both, sheet: &[u8]) -> Result<(), AllocError> {
    let mut both = before.clone()?;
    let library = read_schedule(sheet, &mut both.schedule).map_err(Fault::from);
    let second = reading::read_schedule(bench.heap(), sheet, &mut both.list);
    bench.tally.hear(library, second, both.agree());
    Ok(())
}

pub fn run_profiles(heap: Global) -> Result<Tally, AllocError> {
    let mut bench = Bench::new(heap, 10, Tally::new(heap, "profile sheets")?);
    bench.rounds(ROUNDS, |bench| {
        let sheet = profile_sheet(&mut bench.generator)?;
        let room = room_for(&mut bench.generator, 13);
        read_profiles(bench, &sheet, room)
    })?;
    for lines in 2046..2051 {
        let sheet = long_profile(heap, lines)?;
        read_profiles(&mut bench, sheet.as_bytes(), 2047)?;
        read_profiles(&mut bench, sheet.as_bytes(), 2050)?;
    }
    for bytes in 32_766..32_771 {
        let sheet = stretched(heap, "station,height\n0,-", "\n", bytes)?;
        read_profiles(&mut bench, &sheet, 3)?;
    }
    Ok(bench.tally)
}

fn read_profiles(bench: &mut Bench, sheet: &[u8], room: usize) -> Result<(), AllocError> {
    let heap = bench.heap();
    let mut heights = marked(heap, room)?;
    let mut other = marked(heap, room)?;
    let library = read_profile(sheet, &mut heights).map_err(Fault::from);
    let second = reading::read_profile(heap, sheet, &mut other);
    bench.tally.hear(library, second, heights == other);
    Ok(())
}

/// Schedules are written, and what is written is read back; and single numbers are put into fields.
pub fn run_writing(heap: Global) -> Result<Tally, AllocError> {
    Bench::new(heap, 11, Tally::new(heap, "writing")?).run(WRITTEN, writings)
}

fn writings(bench: &mut Bench) -> Result<(), AllocError> {
    let both = both(&mut bench.generator);
    let text = writing::schedule_text(bench.heap(), &both.list)?;
    write(bench, &both, &text)?;
    read_back(bench, both, &text);
    decimal(bench)
}

fn write(bench: &mut Bench, both: &Both, text: &str) -> Result<(), AllocError> {
    let room = room_for(&mut bench.generator, text.len());
    let mut out = vec![in bench.heap(); b'#'; room]?;
    let mut other = vec![in bench.heap(); b'#'; room]?;
    let library = write_schedule(&both.schedule, &mut out).map_err(Fault::from);
    let second = writing::write_text(text, &mut other);
    bench.tally.hear(library, second, out == other);
    Ok(())
}

/// The library reads the sheet of a schedule as that schedule.
fn read_back(bench: &mut Bench, both: Both, text: &str) {
    let mut again = Both {
        schedule: Schedule::new(),
        list: both.list,
    };
    let library = read_schedule(text.as_bytes(), &mut again.schedule).map_err(Fault::from);
    bench
        .tally
        .hear(library, Ok(again.list.len()), again.agree());
}

/// A number of any length.
fn number(generator: &mut Generator) -> i64 {
    if generator.once_in(4) {
        generator.pick(&[i64::MIN, i64::MAX, 0, 9, 10, -9, -10], 0)
    } else {
        let most = generator.pick(&[10, 1001, 1_000_000_000_000, i64::MAX], 10);
        generator.around(most)
    }
}

fn decimal(bench: &mut Bench) -> Result<(), AllocError> {
    let heap = bench.heap();
    let number = number(&mut bench.generator);
    let room = bench.generator.place(24);
    let mut field = vec![in heap; b'#'; room]?;
    let mut other = vec![in heap; b'#'; room]?;
    let library = put_number(number, &mut field).map_err(Fault::from);
    let second = writing::put_decimal(heap, number, &mut other);
    bench.tally.hear(library, second, field == other);
    Ok(())
}
