//! Statements of a set of processors.

ghost use Rattle.std.specs.Prelude.{◌≡◌, ◌≤◌, ◌<◌, ℕ, List, true, IfOk, IfSome, IsSomeAnd, OnOk};
ghost use Rattle.pram_meaning.specs.Attempt.{attempt_step};
ghost use Rattle.pram_meaning.specs.Bounded.{attempted_on};
ghost use Rattle.pram_meaning.specs.Conflict.{Part};
ghost use Rattle.pram_meaning.specs.Store.{State};
ghost use Rattle.abstract_runs.specs.Following.{Follows};
ghost use Rattle.abstract_runs.specs.Inside.{IsAttempted};
ghost use Rattle.abstract_runs.specs.Leads.{Leads};
ghost use Rattle.abstract_runs.specs.Rows.{AreActive};
ghost use Rattle.abstract_runs.specs.Inner.{IsStill, StandsOn};
ghost use Rattle.abstract_runs.specs.Sure.{HaveFaultBy};
ghost use Rattle.all_inputs.specs.Told.{IsKept};

use crate::active::Active;
use crate::alike::is_alike;
use crate::conflicts::note_conflicts;
use crate::findings::Findings;
use crate::row::Row;
use crate::standing::{Member, Standing};
use crate::sure_faults::{sure_position, surely_clash};
use crate::survey::Survey;
use all_inputs::Told;
use pram_check::{Expression, StepTarget};
use std::alloc::AllocError;

impl<'a> Survey<'a> {
    // The parts, unless each run has a fault in them.
    fn faultless(
        &self,
        known: &Standing,
        rows: Vec<Row>,
        sure: Option<usize>,
        faults: &Findings,
    ) -> Result<Option<Vec<Row>>, AllocError>
        requires { IfSome sure (HaveFaultBy self.now.program.now.rule rows.items) }
        ensures { IfOk result (λ found. (vs : List ℕ) (xs : List Part) → IsAttempted self.now.program.now rows.items vs xs →
            IsSomeAnd found (λ rows. IsAttempted self.now.program.now rows.items vs xs)) }
    {
        if sure.is_some() {
            return Ok(None);
        }
        let rule = self.program.rule();
        let clash = surely_clash(self.alloc, rule, known.cells.len(), &rows, faults)?;
        if clash {
            return Ok(None);
        }
        Ok(Some(rows))
    }

    /// The parts of a set in a statement, where runs go on, by what is known of its processors: it counts, and it may fault.
    pub fn attempt_on(
        &self,
        known: &mut Standing,
        told: &mut Told,
        team: &Vec<Member>,
        active: &[Active],
        line: u32,
        target: &StepTarget,
        e: &Expression,
    ) -> Result<Option<Vec<Row>>, AllocError>
        // Each run goes on with parts of this kind, or comes to what is told.
        ensures leads { IfOk result (λ found. (m : State) (vs : List ℕ) → StandsOn known.old team.now.items vs m → AreActive active.now vs →
            Leads (λ xs n. IsSomeAnd found (λ rows. IsAttempted self.now.program.now rows.items vs xs) × IsStill known.new m n)
            told.new (attempted_on self.now.program.now self.now.bound line (λ s. attempt_step s target.now e.now) vs m)) }
        // Where a run may stand at the bound, that is told.
        ensures bound { OnOk result (self.now.bound ≤ known.old.most → told.new.may_go_on ≡ true) }
        // Where there are parts, one statement more has run, and no more than the bound allows.
        ensures more { IfOk result (λ found. IfSome found (λ rows. (known.old.least < known.new.least) × (known.old.least < self.now.bound))) }
        ensures follows { Follows known.old known.new }
        ensures kept { IsKept told.old told.new }
    {
        if !self.begin(known, told) {
            return Ok(None);
        }
        let mut faults = Findings::none();
        let rows = self.rows_of(known, team, active, target, e, &mut faults)?;
        let rule = self.program.rule();
        let cells = known.cells.len();
        note_conflicts(self.alloc, rule, cells, is_alike(e), &rows, &mut faults)?;
        let sure = sure_position(self.alloc, rule, cells, &rows, &faults)?;
        told.note(line, faults.within(sure))?;
        let found = self.faultless(known, rows, sure, &faults)?;
        Ok(found)
    }
}
