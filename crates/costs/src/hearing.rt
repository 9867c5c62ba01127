//! Counting a run that is heard.

ghost use Rattle.std.specs.Prelude.{⊤, ◌≡◌, ◌+◌, ◌≤◌, ◌^◌, OnOk};
ghost use Rattle.pram_meaning.specs.Listening.{action_is, step_action_is};
ghost use Rattle.costs.specs.Accounts.{entered, met_all};
ghost use Rattle.costs.specs.Heard.{HasCounted};
ghost use Rattle.costs.specs.HeardLaws.{counts_nothing, counts_on};
ghost use Rattle.costs.specs.Ledgers.{ledger_is};
ghost use Rattle.costs.specs.MomentEvents.{alone_events, set_events};
ghost use Rattle.costs.specs.Steps.{acting};

use crate::accesses::{all_reads, all_writes, count_of, reads_on};
use crate::meter::Meter;
use crate::time_step::TimeStep;
use pram_check::Program;
use pram_meaning::Key;
use pram_meaning::action::{Action, StepAction};
use pram_meaning::attempt::Effect;
use pram_meaning::listener::Listener;
use pram_meaning::part::Part;
use pram_meaning::run::Run;
use pram_meaning::team::Member;
use pram_tokens::Location;
use pram_values::Kind;
use std::alloc::AllocError;

// So many processors act without an access to shared memory.
fn acting(line: u32, processors: u32) -> TimeStep
    ensures { result ≡ acting line processors }
{
    TimeStep {
        line,
        processors,
        reads: 0,
        writes: 0,
    }
}

impl Meter {
    // A statement outside pardo.
    fn count(&mut self, action: &Action, step: &TimeStep) -> Result<(), AllocError>
        requires few { step.now.reads ≤ 2 ^ 96 }
        ensures same { self.new.schedule ≡ self.old.schedule }
        ensures counted { OnOk result (ledger_is self.new.ledger ≡ entered self.old.schedule step.now
            (met_all (alone_events (action_is action.now)) (ledger_is self.old.ledger))) }
        ensures outer_reads { OnOk result (self.new.outer_reads ≡ self.old.outer_reads + step.now.reads) }
    {
        if self.ledger.exchanges.begin(action).is_err() {
            return Err(AllocError);
        }
        let Some(outer_reads) = self.outer_reads.checked_add(step.reads) else {
            return Err(AllocError);
        };
        self.outer_reads = outer_reads;
        self.ledger.enter(self.schedule, step)
    }

    // A statement of a set.
    fn count_on(&mut self, action: &StepAction, step: &TimeStep) -> Result<(), AllocError>
        requires few { step.now.reads ≤ 2 ^ 96 }
        ensures same { self.new.schedule ≡ self.old.schedule }
        ensures counted { OnOk result (ledger_is self.new.ledger ≡ entered self.old.schedule step.now
            (met_all (set_events 0 (step_action_is action.now)) (ledger_is self.old.ledger))) }
        ensures outer_reads { self.new.outer_reads ≡ self.old.outer_reads }
    {
        if self.ledger.exchanges.begin_on(action).is_err() {
            return Err(AllocError);
        }
        self.ledger.enter(self.schedule, step)
    }
}

/// What can't be counted is answered as if memory was refused: no run within a bound comes so far.
impl Listener for Meter {
    ghost hears = { HasCounted };

    ghost gives_up = { λ a m b. ⊤ };

    fn acts(
        &mut self,
        _run: &Run,
        location: Location,
        action: &Action,
        trail: &[Option<u32>],
        effect: &Effect,
    ) -> Result<(), AllocError> {
        let step = TimeStep {
            line: location.line,
            processors: 1,
            reads: u128::from(reads_on(trail)),
            writes: count_of(effect.cell),
        };
        self.count(action, &step)
    }

    fn fails(
        &mut self,
        _run: &Run,
        location: Location,
        action: &Action,
        _trail: &[Option<u32>],
        _kind: Kind,
    ) -> Result<(), AllocError> {
        self.count(action, &acting(location.line, 1))
    }

    fn acts_on(
        &mut self,
        _program: &Program,
        _run: &Run,
        _team: &Vec<Member>,
        location: Location,
        action: &StepAction,
        parts: &[Part],
    ) -> Result<(), AllocError> {
        let Ok(processors) = u32::try_from(parts.len()) else {
            return Err(AllocError);
        };
        let step = TimeStep {
            line: location.line,
            processors,
            reads: all_reads(parts),
            writes: all_writes(parts),
        };
        self.count_on(action, &step)
    }

    fn fails_on(
        &mut self,
        _run: &Run,
        _team: &Vec<Member>,
        location: Location,
        action: &StepAction,
        parts: &[Part],
        _key: Key,
    ) -> Result<(), AllocError> {
        let Ok(processors) = u32::try_from(parts.len()) else {
            return Err(AllocError);
        };
        self.count_on(action, &acting(location.line, processors))
    }

    fn closes(&mut self) -> Result<(), AllocError> {
        if self.ledger.exchanges.cut().is_err() {
            return Err(AllocError);
        }
        Ok(())
    }

    ghost hears_nothing = { counts_nothing };

    ghost hears_on = { counts_on };
}
