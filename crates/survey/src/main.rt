//! The tour: one hill of ground, what a bad pass would make of it, and what a schedule of good ones does.
#![tactic(auto)]

use level::Level;
use scale_space::passes::Pass;
use schedule::history::Call;
use schedule::schedules::Schedule;
use show::{Asked, Passes};

mod comparing;
mod level;
mod sheeting;
mod show;
mod smoothing;

const HILL: [i64; 7] = [0, 0, 0, 10, 0, 0, 0];

/// The height whose crossings are listed.
const SIGHT_LINE: i64 = 3;

/// What weights that are refused would make of the hill.
fn bad_pass(rt: &(impl Print + AllocGlobal), pass: Pass) -> anyhow::Result<()> {
    println!(rt; "1. Weights {pass}: what they would make of one hill")?;
    let ground = Level {
        numerators: HILL.to_vec(rt.alloc())?,
        scale: 1,
    };
    show::level(rt, &ground)?;
    let before = show::turns_of(rt, &ground)?;
    let level = Level::weigh(rt.alloc(), pass, &HILL)?;
    show::level(rt, &level)?;
    let after = show::turns_of(rt, &level)?;
    println!(rt; "  turns before: {before}, after: {after}")?;
    println!(rt; "")?;
    Ok(())
}

/// Makes the calls one by one, and shows what each answers.
fn edit(rt: &impl Print, calls: &[Call]) -> anyhow::Result<(Schedule, usize)> {
    println!(rt; "2. A schedule, call by call")?;
    let mut schedule = Schedule::new();
    let mut refused: usize = 0;
    for call in calls {
        let asked = Asked(call);
        match schedule.make(call) {
            Ok(count) => println!(rt; "  {asked}: accepted, passes now {count}")?,
            Err(refusal) => {
                let number = refusal.number();
                println!(rt; "  {asked}: refused with {number}, {refusal}")?;
                refused = refused.saturating_add(1);
            }
        }
    }
    let passes = Passes(&schedule);
    let scale = schedule.scale();
    println!(rt; "  schedule: {passes}, scale {scale}")?;
    println!(rt; "")?;
    Ok((schedule, refused))
}

/// Draws every level of the schedule, and counts its turns and its crossings of the sight line.
fn levels(
    rt: &(impl Print + AllocGlobal),
    schedule: &Schedule,
) -> anyhow::Result<(usize, usize, usize)> {
    let mut turns: usize = 0;
    let mut crossings: usize = 0;
    for k in 0..=schedule.len() {
        println!(rt; "3.{k} Level {k}")?;
        let level = Level::draw(rt.alloc(), schedule, k, &HILL)?;
        show::level(rt, &level)?;
        turns = turns.saturating_add(show::turns_of(rt, &level)?);
        crossings = crossings.saturating_add(show::crossings_of(rt, &level, SIGHT_LINE)?);
    }
    println!(rt; "")?;
    Ok((schedule.len().saturating_add(1), turns, crossings))
}

fn tour(rt: &(impl Print + AllocGlobal)) -> anyhow::Result<()> {
    bad_pass(rt, Pass::Triple(1, 0, 1))?;
    let calls = [
        Call::AddTriple(1, 0, 1),
        Call::AddTriple(2, 4, 2),
        Call::AddStep(1, 4),
        Call::AddPair(3, 3),
        Call::Withdraw(1),
        Call::Withdraw(7),
    ];
    let (schedule, refused) = edit(rt, &calls)?;
    let (count, turns, crossings) = levels(rt, &schedule)?;
    println!(rt; "4. One profile through every kind of smoother")?;
    let windows = smoothing::all_kinds(rt, &HILL)?;
    println!(rt; "")?;
    println!(rt; "5. When are two schedules the same?")?;
    let (compared, equal) = comparing::some_pairs(rt)?;
    println!(rt; "")?;
    println!(rt; "6. The schedule as a sheet")?;
    let back = sheeting::sheets(rt, &schedule)?;
    println!(rt; "")?;
    let stations = HILL.len();
    let made = calls.len();
    println!(rt;
        "Completed: {stations} stations read, {made} calls made and {refused} of them refused,"
    )?;
    println!(rt;
        "{count} levels drawn, {turns} turns and {crossings} crossings of {SIGHT_LINE} found,"
    )?;
    println!(rt;
        "{windows} windows weighed, {compared} pairs of schedules compared and {equal} of them equal,"
    )?;
    println!(rt; "{back} passes written to a sheet and read back.")?;
    Ok(())
}

fn main(rt: HostRuntime) -> anyhow::Result<()> {
    tour(&rt)
}
