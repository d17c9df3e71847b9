//! The drawing of a level.
ghost use Rattle.std.specs.Prelude.{◌≡◌, ◌+◌, ◌-◌, ◌*◌, ◌^◌, ◌<◌, ◌≤◌, true, List, ◌++◌, length, take, drop, ℤ};
ghost use Rattle.std.specs.List.{AllByRecursion};
ghost use Rattle.scale_space.specs.Taps.{dot, windows, scale};
ghost use Rattle.scale_space.specs.Passes.{weights, Proper, reach, product, level};
ghost use Rattle.scale_space.specs.Laws.{Calm};
ghost use Rattle.schedule.specs.Calls.{passes};
ghost use Rattle.levels.specs.Drawing.{heights_lawful, allowed, shape, drawn, laid, worked, Light};

use samples::limits::{LARGEST_HEIGHT, MOST_HEIGHTS, are_within};
use samples::refusals::Refusal;
use scale_space::passes::Pass;
use schedule::reduction::scale_of;
use schedule::schedules::Schedule;

/// How long a level is, and what its numerators are to be divided by.
#[derive(Clone, Copy, PartialEq, Eq, Debug)]
pub struct Drawn {
    pub length: usize,
    pub scale: u64,
}

/// How many samples fewer a pass leaves.
fn fewer_by(pass: Pass) -> usize
    ensures { result ≡ length (weights pass) - 1 }
{
    match pass {
        Pass::Pair(_, _) => 1,
        Pass::Triple(_, _, _) => 2,
    }
}

/// How many samples fewer the passes leave, one after the other.
fn reach_of(passes: &[Pass]) -> usize
    requires { length passes.now ≤ 24 }
    ensures { result ≡ reach passes.now }
{
    passes.iter().map(|pass| fewer_by(*pass)).sum()
}

/// Whether level k can be drawn, and if not, why not.
pub(crate) fn check(
    schedule: &Schedule,
    k: usize,
    profile: &[i64],
    room: usize,
) -> Result<(), Refusal>
    ensures { result ≡ allowed (passes schedule.now) k profile.now room }
{
    if k > schedule.len() {
        return Err(Refusal::NoSuchPlace);
    }
    if profile.is_empty() || profile.len() > MOST_HEIGHTS {
        return Err(Refusal::ProfileLength);
    }
    if !are_within(profile, LARGEST_HEIGHT) {
        return Err(Refusal::HeightOutOfRange);
    }
    if profile.len() <= reach_of(&schedule.as_slice()[0..k]) {
        return Err(Refusal::TooFewSamples);
    }
    if room < profile.len() {
        return Err(Refusal::BufferTooShort);
    }
    Ok(())
}

/// Puts the profile at the front of `work`.
pub(crate) fn begin(profile: &[i64], work: &mut [i64])
    requires { length profile.now ≤ length work.old }
    ensures { work.new ≡ profile.now ++ drop (length profile.now) work.old }
{
    work[0..profile.len()].copy_from_slice(profile);
}

/// Weights laid on as many samples. The sums fit, since every sample is light.
// Apart from the dot product of 64-bit taps in smoother: weights kept narrow are widened in the loop, which vectors do faster.
// A loop: over a chain, a sum of signed products leaves its bound open.
fn weigh(weights: &[u32], samples: &[i64]) -> i64
    requires long { length weights.now ≡ length samples.now }
    requires heavy { 1 ≤ scale weights.now }
    requires light { Light (scale weights.now) samples.now }
    ensures { result ≡ dot weights.now samples.now }
{
    let mut total = 0;
    for (weight, sample) in weights.iter().zip(samples) {
        total += *weight as i64 * *sample;
    }
    total
}

/// Lays weights on a level, in place: a place is written once it has been read for the last time.
fn lay_weights<const N: usize>(weights: [u32; N], level: &mut [i64])
    requires some { 1 ≤ N }
    requires long { N ≤ length level.old }
    requires heavy { 1 ≤ scale weights }
    requires light { Light (scale weights) level.old }
    ensures { level.new ≡ laid (length level.old) (windows weights.entry level.old) level.old }
{
    let left = level.len() - N + 1;
    // By index: in place, each window reads ahead of the place that is written, and no iterator lends both.
    for i in 0..left {
        level[i] = weigh(&weights, &level[i..i + N]);
    }
    level[left..].fill(0);
}

/// Lays a pass on the level that `work` holds, and answers the shape of the next one.
pub(crate) fn lay(pass: Pass, last: Drawn, work: &mut [i64]) -> Drawn
    requires heavy { 1 ≤ scale (weights pass) }
    requires long { length (weights pass) ≤ last.length }
    requires room { last.length ≤ length work.old }
    requires light { Light (scale (weights pass)) (take last.length work.old) }
    requires bounded { last.scale * scale (weights pass) ≤ 2 ^ 40 }
    ensures shorter { result.length + length (weights pass) ≡ last.length + 1 }
    ensures larger { result.scale ≡ last.scale * scale (weights pass) }
    ensures places { work.new ≡ laid last.length (windows (weights pass) (take last.length work.old)) work.old }
{
    let level = &mut work[..last.length];
    match pass {
        Pass::Pair(a, b) => lay_weights([a, b], level),
        Pass::Triple(a, b, c) => lay_weights([a, b, c], level),
    }
    Drawn {
        length: last.length - fewer_by(pass),
        scale: last.scale * scale_of(pass),
    }
}

/// Lays all the passes on the heights that `work` holds.
fn lay_all(passes: &[Pass], work: &mut [i64]) -> Drawn
    requires proper { AllByRecursion Proper passes.now }
    requires bounded { product passes.now ≤ 2 ^ 40 }
    requires long { reach passes.now < length work.old }
    requires lawful { heights_lawful work.old ≡ true }
    ensures answer { result ≡ shape (level passes.now work.old) }
    ensures places { work.new ≡ laid (length work.old) (level passes.now work.old).numerators work.old }
{
    let mut last = Drawn {
        length: work.len(),
        scale: 1,
    };
    for pass in passes {
        last = lay(*pass, last, work);
    }
    last
}

/// Draws level k of a schedule from a profile, exactly and in place: `work` then begins with the level's numerators, followed
/// by 0 up to the profile's length, and is unchanged from there on. Answers the level's length and scale; a refusal leaves
/// `work` as it was. Whatever the profile, from each level to the next and at the rounding of a level, neither the turns nor
/// the crossings of any whole height become more, and all lies between the lowest and the highest height.
pub fn draw(
    schedule: &Schedule,
    k: usize,
    profile: &[i64],
    work: &mut [i64],
) -> Result<Drawn, Refusal>
    ensures answer { result ≡ drawn (passes schedule.now) k profile.now (length work.old) }
    ensures places { work.new ≡ worked result (length profile.now) (level (take k (passes schedule.now)) profile.now).numerators work.old }
    ensures calm { (hs : List ℤ) → Calm (passes schedule.now) hs }
{
    check(schedule, k, profile, work.len())?;
    begin(profile, work);
    Ok(lay_all(&schedule.as_slice()[0..k], &mut work[..profile.len()]))
}
