//! What the tour prints.
use crate::level::Level;
use anyhow::anyhow;
use samples::refusals::Refusal;
use samples::{crossings, rounding, turns};
use scale_space::crossings::{Crossing, Direction};
use scale_space::turns::{Turn, TurnKind};
use schedule::history::Call;
use schedule::schedules::Schedule;
use std::fmt;

/// Room for what one small profile can hold.
const PLACES: usize = 16;

/// Numbers under a title, on a line.
#[derive(Clone, Copy)]
pub struct Row<'a> {
    pub title: &'a str,
    pub values: &'a [i64],
}

impl fmt::Display for Row<'_> {
    fn fmt<W: fmt::Write>(&self, f: &mut fmt::Formatter<W>) -> fmt::Result {
        let title = self.title;
        write!(f, "  {title}:")?;
        for value in self.values {
            write!(f, " {value}")?;
        }
        Ok(())
    }
}

/// A level: its numerators, and a picture of it rounded to whole heights.
pub fn level(rt: &impl Print, level: &Level) -> anyhow::Result<()> {
    let scale = level.scale;
    let numerators = Row {
        title: "numerators",
        values: &level.numerators,
    };
    println!(rt; "{numerators} over {scale}")?;
    let mut out = [0; PLACES];
    let count = rounding::round(&level.numerators, scale, &mut out).map_err(unexpected)?;
    let heights = out.get(0..count).unwrap_or(&[]);
    let rounded = Row {
        title: "rounded",
        values: heights,
    };
    println!(rt; "{rounded}")?;
    picture(rt, heights)
}

/// A bar for each height, as a picture of the ground.
fn picture(rt: &impl Print, heights: &[i64]) -> anyhow::Result<()> {
    for (place, height) in heights.iter().enumerate() {
        print!(rt; "  {place:>4} |")?;
        for _ in 0..*height {
            print!(rt; "#")?;
        }
        println!(rt; "")?;
    }
    Ok(())
}

// The library's kinds and directions have no words of their own, and a type around each would be longer than these two matches.
fn kind_name(kind: TurnKind) -> &'static str {
    match kind {
        TurnKind::Ridge => "ridge",
        TurnKind::Hollow => "hollow",
    }
}

fn direction_name(direction: Direction) -> &'static str {
    match direction {
        Direction::Up => "up",
        Direction::Down => "down",
    }
}

/// An error that says which refusal the tour did not expect.
pub fn unexpected(refusal: Refusal) -> anyhow::Error {
    let number = refusal.number();
    anyhow!("refused with {number}: {refusal}")
}

/// Lists the turns of a level, and answers how many there are.
// Apart from `crossings_of`: a function for both would take the search and the line as closures, and be no shorter.
pub fn turns_of(rt: &impl Print, level: &Level) -> anyhow::Result<usize> {
    let mut table = [Turn {
        kind: TurnKind::Ridge,
        place: 0,
        numerator: 0,
    }; PLACES];
    let found = turns::find(&level.numerators, &mut table).map_err(unexpected)?;
    let scale = level.scale;
    for turn in table.iter().take(found) {
        let kind = kind_name(turn.kind);
        let place = turn.place;
        let numerator = turn.numerator;
        println!(rt; "  {kind} at {place}, height {numerator}/{scale}")?;
    }
    Ok(found)
}

/// Lists the crossings of a height by a level, and answers how many there are.
pub fn crossings_of(rt: &impl Print, level: &Level, height: i64) -> anyhow::Result<usize> {
    let mut table = [Crossing {
        from: 0,
        to: 0,
        direction: Direction::Up,
    }; PLACES];
    let found = crossings::find(&level.numerators, level.scale, height, &mut table).map_err(
        unexpected,
    )?;
    for crossing in table.iter().take(found) {
        let way = direction_name(crossing.direction);
        let from = crossing.from;
        let to = crossing.to;
        println!(rt; "  crosses {height} going {way}, from {from} to {to}")?;
    }
    Ok(found)
}

/// A call, by its arguments.
#[derive(Clone, Copy)]
pub struct Asked<'a>(pub &'a Call);

impl fmt::Display for Asked<'_> {
    fn fmt<W: fmt::Write>(&self, f: &mut fmt::Formatter<W>) -> fmt::Result {
        match self.0 {
            Call::AddPair(a, b) => write!(f, "add pair ({a}, {b})"),
            Call::AddTriple(a, b, c) => write!(f, "add triple ({a}, {b}, {c})"),
            Call::AddStep(p, q) => write!(f, "add step {p}/{q}"),
            Call::Withdraw(place) => write!(f, "withdraw {place}"),
            Call::Join(_) => write!(f, "join another"),
        }
    }
}

/// The passes that stand in a schedule.
#[derive(Clone, Copy)]
pub struct Passes<'a>(pub &'a Schedule);

impl fmt::Display for Passes<'_> {
    fn fmt<W: fmt::Write>(&self, f: &mut fmt::Formatter<W>) -> fmt::Result {
        let Some((first, rest)) = self.0.as_slice().split_first() else {
            return write!(f, "no pass");
        };
        write!(f, "{first}")?;
        for pass in rest {
            write!(f, " {pass}")?;
        }
        Ok(())
    }
}
