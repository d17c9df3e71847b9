//! How a walk sets out and goes up.
ghost use Rattle.std.specs.Prelude.{ℕ, ◌+◌, ◌<◌, ◌≤◌, List, ℤ};
ghost use Rattle.scale_space.specs.declared.passes.Pass.{Pass};
ghost use Rattle.schedule.specs.Calls.{passes};
ghost use Rattle.levels.specs.Walks.{At, SetOut, Stepped};

use crate::draw::{Drawn, begin, check, lay};
use crate::walks::Walk;
use samples::limits::MOST_HEIGHTS;
use samples::refusals::Refusal;
use schedule::schedules::Schedule;

impl Walk {
    /// Sets out from a profile, level 0, to go up to level `last`: refused just where `draw` refuses that level for another
    /// reason than its buffer.
    pub fn new(schedule: &Schedule, last: usize, profile: &[i64]) -> Result<Walk, Refusal>
        ensures { SetOut result (passes schedule.now) last profile.now }
    {
        let length = profile.len();
        check(schedule, last, profile, length)?;
        let mut samples = [0; MOST_HEIGHTS];
        begin(profile, &mut samples);
        Ok(Walk {
            schedule: *schedule,
            last,
            level: 0,
            samples,
            drawn: Drawn { length, scale: 1 },
        })
    }

    /// Goes up to the next level, and answers whether there was one: at the last level it stays.
    pub fn step(&mut self) -> bool
        ensures is { Stepped self.old result self.new }
        ensures climbs { (ps : List Pass) (last k : ℕ) (hs : List ℤ) → At self.old ps last k hs → k < last → At self.new ps last (k + 1) hs }
    {
        if self.level >= self.last {
            return false;
        }
        let pass = self.schedule.as_slice()[self.level];
        self.drawn = lay(pass, self.drawn, &mut self.samples);
        self.level += 1;
        true
    }

    /// Goes up to the last level.
    pub fn climb(&mut self)
        ensures { (ps : List Pass) (last k : ℕ) (hs : List ℤ) → At self.old ps last k hs → k ≤ last → At self.new ps last last hs }
    {
        for _ in self.level..self.last {
            self.step();
        }
    }
}
