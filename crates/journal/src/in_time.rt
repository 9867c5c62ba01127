//! A run that is told as long as there is time.

ghost use Rattle.std.proofs.Common.{◌∙◌};
ghost use Rattle.std.specs.Prelude.{◌≡◌, [], None, OnErr, OnOk, Some, refl, true, ℕ};
ghost use Rattle.pram_meaning.specs.Moments.{Moment};
ghost use Rattle.journal.specs.Entries as spec;
ghost use Rattle.journal.specs.HeardLaws.{Heard, heard_nothing, heard_on};
ghost use Rattle.journal.specs.InTime.{GaveUpAt, IsBegun};

use crate::journal::Journal;
use crate::teller::Teller;
use observing::Watch;
use pram_check::Program;
use pram_meaning::Key;
use pram_meaning::action::{Action, StepAction};
use pram_meaning::attempt::Effect;
use pram_meaning::listener::Listener;
use pram_meaning::part::Part;
use pram_meaning::run::Run;
use pram_meaning::team::Member;
use pram_tokens::Location;
use pram_values::Kind;
use std::alloc::AllocError;

// The clock is looked at when so many processors have acted, or one that is alone so often.
const STRIDE: usize = 32;

/// In milliseconds, after how long what was told is shown again.
pub(crate) const SHOWN_EVERY: u64 = 50;

/// Where time was over: behind so many statements, with what they printed.
#[derive(Drop)]
pub(crate) struct Cut {
    pub(crate) statements: u32,
    pub(crate) output: Vec<i64>,
}

/// Tells a run, tells a watch how far it is, has what was told shown as time goes, and ends the run when its time is over.
#[derive(Drop)]
pub(crate) struct InTime<'a, 'w, T: Teller, V: Watch> {
    pub(crate) journal: Journal<'a, T>,
    pub(crate) watch: &'w mut V,
    /// How many milliseconds the call may have been going.
    pub(crate) until: Option<u64>,
    /// When what was told is shown next.
    pub(crate) next: u64,
    /// How often a processor has acted since the clock was looked at.
    pub(crate) acted: usize,
    pub(crate) cut: Option<Cut>,
}

// Whether at this time a run is over that may go on until that one.
fn is_over(until: Option<u64>, now: u64) -> bool
    ensures { result ≡ true → (time : ℕ) × (until ≡ Some time) }
{
    match until {
        Some(until) => until <= now,
        None => false,
    }
}

impl<'a, 'w, T: Teller, V: Watch> InTime<'a, 'w, T, V> {
    // Has what was told shown, where it is time for that.
    fn show(&mut self, now: u64) -> Result<(), AllocError>
        ensures kept { (self.new.journal.program ≡ self.old.journal.program) × (self.new.until ≡ self.old.until)
            × (self.new.cut ≡ self.old.cut) }
        ensures shown { OnOk result (T.tells self.old.journal.teller [] self.new.journal.teller) }
        ensures broken { OnErr result ((e : spec.Entry) → T.breaks_off self.old.journal.teller e self.new.journal.teller) }
    {
        if now < self.next {
            return Ok(());
        }
        self.next = now.saturating_add(SHOWN_EVERY);
        self.journal.teller.show()
    }

    // The time is over, at the statement that begins in this state.
    fn end(&mut self, run: &Run) -> Result<(), AllocError>
        requires timed { (time : ℕ) × (self.old.until ≡ Some time) }
        ensures kept { (self.new.journal ≡ self.old.journal) × (self.new.until ≡ self.old.until) }
        ensures ok { OnOk result (self.new.cut ≡ self.old.cut) }
        ensures cut { OnErr result (self.old.cut ≡ None → (m : Moment) → IsBegun m run.now.count run.now.output.items →
            GaveUpAt T.tells T.breaks_off self.old.journal.program.now self.old.until self.old.journal.teller m
            self.new.journal.teller self.new.cut) }
    {
        let Some(statements) = run.count.checked_sub(1) else {
            return Ok(());
        };
        let output = Vec::from_slice(self.journal.alloc, &run.output)?;
        self.cut = Some(Cut { statements, output });
        Err(AllocError)
    }

    // Looks at the clock, at a statement that so many processors execute and that begins in this state.
    fn look(&mut self, run: &Run, processors: usize) -> Result<(), AllocError>
        ensures kept { (self.new.journal.program ≡ self.old.journal.program) × (self.new.until ≡ self.old.until) }
        ensures shown { OnOk result (T.tells self.old.journal.teller [] self.new.journal.teller × (self.new.cut ≡ self.old.cut)) }
        ensures left { OnErr result (self.old.cut ≡ None → (m : Moment) → IsBegun m run.now.count run.now.output.items →
            GaveUpAt T.tells T.breaks_off self.old.journal.program.now self.old.until self.old.journal.teller m
            self.new.journal.teller self.new.cut) }
    {
        self.acted = self.acted.saturating_add(processors);
        if self.acted < STRIDE {
            return Ok(());
        }
        self.acted = 0;
        self.watch.ran(run.count);
        let now = self.watch.elapsed();
        self.show(now)?;
        if is_over(self.until, now) {
            return self.end(run);
        }
        Ok(())
    }
}

impl<'a, 'w, T: Teller, V: Watch> Listener for InTime<'a, 'w, T, V> {
    ghost hears = { λ a ms b. Heard T.tells a.journal.program.now b.journal.program.now a.journal.teller b.journal.teller ms
        × (b.until ≡ a.until) × (b.cut ≡ a.cut) };

    ghost gives_up = { λ a m b. a.cut ≡ None →
        GaveUpAt T.tells T.breaks_off a.journal.program.now a.until a.journal.teller m b.journal.teller b.cut };

    fn acts(
        &mut self,
        run: &Run,
        location: Location,
        action: &Action,
        trail: &[Option<u32>],
        effect: &Effect,
    ) -> Result<(), AllocError> {
        self.look(run, 1)?;
        self.journal.acts(run, location, action, trail, effect)
    }

    fn fails(
        &mut self,
        run: &Run,
        location: Location,
        action: &Action,
        trail: &[Option<u32>],
        kind: Kind,
    ) -> Result<(), AllocError> {
        self.journal.fails(run, location, action, trail, kind)
    }

    fn acts_on(
        &mut self,
        program: &Program,
        run: &Run,
        team: &Vec<Member>,
        location: Location,
        action: &StepAction,
        parts: &[Part],
    ) -> Result<(), AllocError> {
        self.look(run, parts.len().max(1))?;
        self.journal
            .acts_on(program, run, team, location, action, parts)
    }

    fn fails_on(
        &mut self,
        run: &Run,
        team: &Vec<Member>,
        location: Location,
        action: &StepAction,
        parts: &[Part],
        key: Key,
    ) -> Result<(), AllocError> {
        self.journal
            .fails_on(run, team, location, action, parts, key)
    }

    fn closes(&mut self) -> Result<(), AllocError> {
        self.journal.closes()
    }

    ghost hears_nothing = { λ l. (heard_nothing T.tells T.tells_nothing l.journal.program.now l.journal.teller, refl, refl) };

    ghost hears_on = { λ a b c ms ns h k. (
      heard_on T.tells T.tells_on a.journal.program.now b.journal.program.now c.journal.program.now
          a.journal.teller b.journal.teller c.journal.teller ms ns h.0 k.0,
      k.1 ∙ h.1,
      k.2 ∙ h.2,
    ) };
}
