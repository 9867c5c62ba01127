//! Counting.

ghost use Rattle.std.specs.Prelude.{◌≡◌, ◌<◌, ◌≤◌, ◌^◌, ◌-◌};
ghost use Rattle.costs.specs.Cost.{rounds_for};
ghost use Rattle.costs.specs.Totals.{added, nothing};
ghost use Rattle.costs.specs.Ledgers.{tally_is};

use crate::tally::Tally;
use crate::time_step::TimeStep;

// The rounds in which so many processors do what `count` processors do at once.
fn rounds_of(schedule: u32, count: u32) -> u32
    requires { 0 < schedule }
    ensures { result ≡ rounds_for schedule count }
{
    1 + count.saturating_sub(1) / schedule
}

impl Tally {
    /// Nothing has run.
    pub fn new() -> Tally
        ensures { tally_is result ≡ nothing }
    {
        Tally {
            time: 0,
            work: 0,
            width: 0,
            reads: 0,
            writes: 0,
            rounds: 0,
        }
    }

    /// One statement more, whose rounds are those on so many processors.
    pub fn add(&mut self, schedule: u32, step: &TimeStep)
        requires some { 0 < schedule }
        requires room { self.old.time < 2 ^ 32 - 1 }
        requires few { step.now.reads ≤ 2 ^ 96 }
        ensures { tally_is self.new ≡ added schedule step.now (tally_is self.old) }
    {
        let rounds = rounds_of(schedule, step.processors);
        *self = Tally {
            time: self.time + 1,
            work: self.work + u64::from(step.processors),
            width: self.width.max(step.processors),
            reads: self.reads + step.reads,
            writes: self.writes + u64::from(step.writes),
            rounds: self.rounds + u64::from(rounds),
        };
    }
}
