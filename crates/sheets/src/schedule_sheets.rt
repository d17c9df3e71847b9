//! Schedule sheets: a pass in each value line.
ghost use Rattle.std.specs.Prelude.{◌≡◌, ℕ, List, [], ◌∷◌, None, MatchOption};
ghost use Rattle.std.specs.Option.{option_map, ok_or};
ghost use Rattle.schedule.specs.Calls.{passes};
ghost use Rattle.sheets.specs.declared.faults.SheetFault.TheVariants.{Malformed};
ghost use Rattle.sheets.specs.Numbers.{natural};
ghost use Rattle.sheets.specs.Tokens.{TokenOf};
ghost use Rattle.sheets.specs.Lines.{cut};
ghost use Rattle.sheets.specs.ScheduleSheets.{two, three, counts, pass_of, capped_pass, with_pass, schedule_of, standing_in, counted, in_place_of};

use crate::faults::SheetFault;
use crate::lines::{ReadsLines, after_names, split, walk};
use crate::tokens::{Field, Token};
use scale_space::passes::Pass;
use schedule::schedules::Schedule;

/// How many taps a pass has, as its line says first.
#[derive(Clone, Copy)]
enum TapCount {
    Two,
    Three,
}

/// The four fields of a line.
fn four(line: &[u8]) -> Option<(&[u8], &[u8], &[u8], &[u8])>
    ensures { MatchOption result (pass_of (cut 44 line.now) ≡ None) (λ p. cut 44 line.now ≡ p.0.now ∷ p.1.now ∷ p.2.now ∷ p.3.now ∷ []) }
{
    let (count, rest) = split(line, ',')?;
    let (a, rest) = split(rest, ',')?;
    let (b, c) = split(rest, ',')?;
    match split(c, ',') {
        None => Some((count, a, b, c)),
        Some(_) => None,
    }
}

fn count_of(text: &[u8]) -> Option<TapCount>
    ensures { result ≡ counts text.now }
{
    // A byte taken as a char and matched against char literals is a form that the project fixes here.
    match text {
        [byte] => match *byte as char {
            '2' => Some(TapCount::Two),
            '3' => Some(TapCount::Three),
            _ => None,
        },
        _ => None,
    }
}

fn read_pair(a: Token, b: Token) -> Result<Pass, SheetFault>
    ensures { (x y : List ℕ) (n : ℕ) → TokenOf a.entry x n → TokenOf b.entry y n → result ≡ ok_or (option_map capped_pass (two (natural x) (natural y))) (Malformed n) }
{
    Ok(Pass::Pair(a.number()?, b.number()?))
}

fn read_triple(a: Token, b: Token, c: Token) -> Result<Pass, SheetFault>
    ensures { (x y z : List ℕ) (n : ℕ) → TokenOf a.entry x n → TokenOf b.entry y n → TokenOf c.entry z n → result ≡ ok_or (option_map capped_pass (three (natural x) (natural y) (natural z))) (Malformed n) }
{
    Ok(Pass::Triple(a.number()?, b.number()?, c.number()?))
}

/// The pass of a value line, with its weights as they stand there.
fn read_pass(text: &[u8], line: usize) -> Result<Pass, SheetFault>
    ensures { result ≡ ok_or (option_map capped_pass (pass_of (cut 44 text.now))) (Malformed line) }
{
    let malformed = SheetFault::Malformed { line };
    let (count, a, b, c) = four(text).ok_or(malformed)?;
    let count = count_of(count).ok_or(malformed)?;
    let a = Token::new(a, line);
    let b = Token::new(b, line);
    let c = Token::new(c, line);
    match count {
        TapCount::Two => match c.field {
            Field::Empty(_) => read_pair(a, b),
            Field::Number(_) => Err(malformed),
        },
        TapCount::Three => read_triple(a, b, c),
    }
}

impl ReadsLines for Schedule {
    type Value = Pass;

    ghost values = { λ schedule. passes schedule };

    ghost read = { with_pass };

    fn read_line(&mut self, line: &[u8], k: usize) -> Result<(), SheetFault> {
        let pass = read_pass(line, k + 2)?;
        self.add(pass)
            .map_err(|_| SheetFault::Refused { line: k + 2 })?;
        Ok(())
    }
}

/// The schedule of a sheet: its passes, added in order to an empty schedule.
pub fn schedule_in(sheet: &[u8]) -> Result<Schedule, SheetFault>
    ensures { standing_in result ≡ schedule_of sheet.now }
{
    let rest = after_names(sheet, b"taps,a,b,c")?;
    let mut built = Schedule::new();
    walk(rest, &mut built)?;
    Ok(built)
}

/// Reads a schedule sheet: its passes then stand in place of those in `schedule`. It answers how many they are.
pub fn read_schedule(sheet: &[u8], schedule: &mut Schedule) -> Result<usize, SheetFault>
    ensures answers { result ≡ counted (schedule_of sheet.now) }
    ensures stands { passes schedule.new ≡ in_place_of (passes schedule.old) (schedule_of sheet.now) }
{
    *schedule = schedule_in(sheet)?;
    Ok(schedule.len())
}
