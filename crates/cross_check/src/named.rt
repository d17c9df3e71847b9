//! Cases that stand in the reference by name. Both implementations must give what it says.
use crate::both::{Both, Request};
use crate::second::faults::{Answer, Fault};
use crate::second::finding;
use crate::second::whole_command::{ROOM, printed};
use crate::tally::Tally;
use command::answering::answer;
use samples::{crossings, turns};
use scale_space::crossings::{Crossing, Direction};
use scale_space::turns::{Turn, TurnKind};
use std::alloc::{AllocError, Global};

const EXAMPLE: &[u8] =
    b"taps,a,b,c\n3,1,2,1\n\nstation,height\n0,0\n1,0\n2,8\n3,0\n4,6\n5,0\n6,0\n";

const LISTED: &str =
    "level,place,kind,height\n0,2,ridge,8\n0,3,hollow,0\n0,4,ridge,6\n1,1,ridge,4\n";

pub fn run(heap: Global) -> Result<Tally, AllocError> {
    let mut tally = Tally::new(heap, "named cases")?;
    turns_of(heap, &mut tally, &[0, 1, 1], 0)?;
    turns_of(heap, &mut tally, &[0, 5, 5, 0], 1)?;
    crossings_of(heap, &mut tally, &[-1, 0, -1], 0)?;
    crossings_of(heap, &mut tally, &[-1, 0, 1], 1)?;
    example(heap, &mut tally)?;
    largest_scale(heap, &mut tally);
    full_schedule(heap, &mut tally);
    Ok(tally)
}

/// The two answers must be the same, and the one that is expected.
fn expect(tally: &mut Tally, library: Answer, second: Answer, expected: Answer) {
    tally.hear(library, second, library == expected);
}

// Turns and crossings take the same steps: one function would be handed a table and both finders by each, no fewer lines.
fn turns_of(
    heap: Global,
    tally: &mut Tally,
    samples: &[i64],
    expected: usize,
) -> Result<(), AllocError> {
    let mut table = [Turn {
        kind: TurnKind::Ridge,
        place: 0,
        numerator: 0,
    }; 4];
    let library = turns::find(samples, &mut table).map_err(Fault::from);
    let second = finding::turns(heap, samples)?.len();
    expect(tally, library, Ok(second), Ok(expected));
    Ok(())
}

fn crossings_of(
    heap: Global,
    tally: &mut Tally,
    samples: &[i64],
    expected: usize,
) -> Result<(), AllocError> {
    let mut table = [Crossing {
        from: 0,
        to: 0,
        direction: Direction::Up,
    }; 4];
    let library = crossings::find(samples, 1, 0, &mut table).map_err(Fault::from);
    let second = finding::crossings(heap, samples, 1, 0)?.len();
    expect(tally, library, Ok(second), Ok(expected));
    Ok(())
}

/// The command's example, byte for byte.
fn example(heap: Global, tally: &mut Tally) -> Result<(), AllocError> {
    let mut out = vec![in heap; b'#'; ROOM]?;
    let library = answer(EXAMPLE, &mut out).map_err(Fault::from);
    let second = printed(heap, EXAMPLE)?;
    let same = out.starts_with(LISTED.as_bytes()) && second.text.as_str() == LISTED;
    tally.hear(library, Ok(second.text.len()), same);
    Ok(())
}

fn add(tally: &mut Tally, both: &mut Both, request: Request, expected: Answer) {
    let (library, second) = both.make(&request);
    expect(tally, library, second, expected);
}

/// Twenty triples (1, 2, 1) reach the scale 2^40; one more is refused, and a pass of scale 1 still goes in.
fn largest_scale(heap: Global, tally: &mut Tally) {
    let mut both = Both::new(heap);
    for count in 1..=20 {
        add(tally, &mut both, Request::Triple(1, 2, 1), Ok(count));
    }
    let scale = both.schedule.scale() == 1_099_511_627_776
        && both.list.scale() == 1_099_511_627_776;
    tally.hear(
        Ok(both.schedule.len()),
        Ok(both.list.len()),
        scale && both.agree(),
    );
    let too_large = Err(Fault::plain(6));
    add(tally, &mut both, Request::Triple(1, 2, 1), too_large);
    add(tally, &mut both, Request::Pair(0, 1), Ok(21));
}

/// On a full schedule an unadmitted triple is refused for that, and any good pass for want of room.
fn full_schedule(heap: Global, tally: &mut Tally) {
    let mut both = Both::new(heap);
    for count in 1..=24 {
        add(tally, &mut both, Request::Pair(0, 1), Ok(count));
    }
    let not_admitted = Err(Fault::plain(3));
    add(tally, &mut both, Request::Triple(1, 0, 1), not_admitted);
    let too_many = Err(Fault::plain(5));
    add(tally, &mut both, Request::Pair(0, 1), too_many);
}
