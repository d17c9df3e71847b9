//! A schedule written to a sheet and read back, and sheets that are refused.
use schedule::schedules::Schedule;
use sheets::faults::SheetFault;
use sheets::profiles::read_profile;
use sheets::schedule_sheets::read_schedule;
use sheets::writing::write_schedule;
use std::error::Error;
use std::{fmt, str};

/// More than the sheet of any schedule has.
const MOST_SCHEDULE_BYTES: usize = 512;

/// A fault of a sheet, as the tour tells it.
#[derive(Clone, Copy, Debug)]
struct Refused(SheetFault);

impl fmt::Display for Refused {
    fn fmt<W: fmt::Write>(&self, f: &mut fmt::Formatter<W>) -> fmt::Result {
        let number = self.0.number();
        let line = self.0.line();
        write!(f, "refused with {number} at line {line}")
    }
}

impl Error for Refused {}

/// Writes the schedule's sheet, shows it and reads it back; answers how many passes came back.
fn there_and_back(rt: &impl Print, schedule: &Schedule) -> anyhow::Result<usize> {
    let mut out = [0; MOST_SCHEDULE_BYTES];
    let bytes = write_schedule(schedule, &mut out).map_err(Refused)?;
    let sheet = out.get(0..bytes).unwrap_or(&[]);
    if let Ok(text) = str::from_utf8(sheet) {
        print!(rt; "{text}")?;
    }
    let mut back = Schedule::new();
    let count = read_schedule(sheet, &mut back).map_err(Refused)?;
    if back == *schedule {
        println!(rt; "  {bytes} bytes written, {count} passes read back, the same")?;
    }
    Ok(count)
}

/// Shows what a sheet is refused with.
fn show_fault(rt: &impl Print, name: &str, read: Result<usize, SheetFault>) -> anyhow::Result<()> {
    if let Err(refused) = read.map_err(Refused) {
        println!(rt; "  a {name} sheet is {refused}")?;
    }
    Ok(())
}

/// Shows a round trip and two refusals; answers how many passes came back.
pub fn sheets(rt: &impl Print, schedule: &Schedule) -> anyhow::Result<usize> {
    let count = there_and_back(rt, schedule)?;
    let bad_schedule = b"taps,a,b,c\n3,1,2,1\n3,1,0,1\n";
    let read = read_schedule(bad_schedule, &mut Schedule::new());
    show_fault(rt, "schedule", read)?;
    let read = read_profile(b"station,height\n0,-0\n", &mut [0; 16]);
    show_fault(rt, "profile", read)?;
    Ok(count)
}
