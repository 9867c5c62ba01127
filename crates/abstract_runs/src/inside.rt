//! Statements inside pardo.

ghost use Rattle.std.specs.Prelude.{◌≡◌, ◌≤◌, ◌<◌, ◌+◌, ◌⊎◌, ℕ, List, true, IfOk, IfErr, IfSome, IsSomeAnd, OnOk};
ghost use Rattle.pram_meaning.specs.Bounded as spec;
ghost use Rattle.pram_meaning.specs.Conflict.{Part};
ghost use Rattle.pram_meaning.specs.Store.{State};
ghost use Rattle.pram_meaning.specs.Together.{assigned_by};
ghost use Rattle.abstract_runs.specs.Following.{Follows};
ghost use Rattle.all_inputs.specs.declared.undecided.Undecided.TheVariants.{Restless};
ghost use Rattle.abstract_runs.specs.declared.halt.Halt.TheVariants.{OutOfMemory};
ghost use Rattle.abstract_runs.specs.Halting.{Halts, HasStep, HaveStep, IsOpenOn};
ghost use Rattle.abstract_runs.specs.Inner.{AreKnownIn, AreWay};
ghost use Rattle.abstract_runs.specs.Inside.{IsAttempted};
ghost use Rattle.abstract_runs.specs.Leads.{Leads};
ghost use Rattle.abstract_runs.specs.Likeness.{AreLike};
ghost use Rattle.abstract_runs.specs.Open.{StayActive, after_test_on};
ghost use Rattle.abstract_runs.specs.Rows.{AreActive};
ghost use Rattle.abstract_runs.specs.Standing.{IsKnownAs, StandsWith};
ghost use Rattle.all_inputs.specs.Told.{IsKept};

use crate::active::Active;
use crate::halt::Halt;
use crate::inner::known_behind;
use crate::narrowing_members::narrowed_team;
use crate::resting::{MOST_ROUNDS, is_all_within, widen_at, widen_team_at};
use crate::row::Row;
use crate::selecting::{select, unsure};
use crate::standing::{Member, Standing};
use crate::sureness::has_sure;
use crate::survey::Survey;
use crate::teams::copied_team;
use crate::writing::{write_cells, write_locals};
use all_inputs::{Told, Undecided};
use pram_check::{Expression, Step, StepTarget};
use std::alloc::AllocError;

impl<'a> Survey<'a> {
    // What is known behind an assignment whose parts are of this kind.
    fn write_rows(
        &self,
        known: &mut Standing,
        team: &mut Vec<Member>,
        target: &StepTarget,
        rows: &Vec<Row>,
    ) -> Result<(), AllocError>
        ensures stands { OnOk result ((m : State) (vs : List ℕ) (xs : List Part) → StandsWith known.old team.old.items m →
            IsAttempted self.now.program.now rows.now.items vs xs →
            StandsWith known.new team.new.items (assigned_by self.now.program.now target.now xs m)) }
        ensures follows { OnOk result (Follows known.old known.new) }
        ensures like { OnOk result (AreLike team.old.items team.new.items) }
    {
        match target {
            StepTarget::Local(x) => {
                write_locals(rows, *x, team);
                Ok(())
            }
            StepTarget::Cell(_) | StepTarget::Element(_, _) => {
                write_cells(self.alloc, self.program.rule(), rows, &mut known.cells)?;
                Ok(())
            }
        }
    }

    /// What is left of what is known of the processors whose test came out so, if it names what a processor has alone.
    fn left_of(
        &self,
        known: &Standing,
        team: &Vec<Member>,
        e: &Expression,
        way: bool,
    ) -> Result<Option<Vec<Member>>, AllocError>
        ensures { IfOk result (λ left. IfSome left (λ inner. (m : State) (vs : List ℕ) → IsKnownAs known.now m →
            AreKnownIn team.now.items vs m → AreWay self.now.program.now e.now way vs m → AreKnownIn inner.items vs m)) }
    {
        let left = narrowed_team(self.alloc, self.program, known, team, e, way)?;
        Ok(left)
    }

    /// An assignment of a set; `false` where no run goes on.
    fn assign_on(
        &self,
        known: &mut Standing,
        told: &mut Told,
        team: &mut Vec<Member>,
        inner: Option<&Vec<Member>>,
        active: &[Active],
        line: u32,
        target: &StepTarget,
        e: &Expression,
    ) -> Result<bool, Halt>
        ensures leads { IfOk result (λ on. (m : State) (vs : List ℕ) → StandsWith known.old team.old.items m →
            IfSome inner.entry (λ t. AreKnownIn t.now.items vs m) → AreActive active.now vs →
            Leads (λ u n. (on ≡ true) × StandsWith known.new team.new.items n) told.new
            (spec.assign_on self.now.program.now self.now.bound line target.now e.now vs m)) }
        ensures halts { IfErr result (λ h. h ≡ OutOfMemory) }
        ensures follows { OnOk result (Follows known.old known.new) }
        ensures like { OnOk result (AreLike team.old.items team.new.items) }
        ensures kept { IsKept told.old told.new }
    {
        let seen = inner.unwrap_or(team);
        let Some(rows) = self.attempt_on(known, told, seen, active, line, target, e)? else {
            return Ok(false);
        };
        self.write_rows(known, team, target, &rows)?;
        Ok(true)
    }

    /// The parts of a set in a test, where runs go on.
    fn test_on(
        &self,
        known: &mut Standing,
        told: &mut Told,
        team: &Vec<Member>,
        inner: Option<&Vec<Member>>,
        active: &[Active],
        line: u32,
        e: &Expression,
    ) -> Result<Option<Vec<Row>>, AllocError>
        ensures leads { IfOk result (λ found. (m : State) (vs : List ℕ) → StandsWith known.old team.now.items m →
            IfSome inner.entry (λ t. AreKnownIn t.now.items vs m) → AreActive active.now vs →
            Leads (λ xs n. IsSomeAnd found (λ rows. IsAttempted self.now.program.now rows.items vs xs) × StandsWith known.new team.now.items n)
            told.new (spec.tested_on self.now.program.now self.now.bound line e.now vs m)) }
        ensures bound { OnOk result (self.now.bound ≤ known.old.most → told.new.may_go_on ≡ true) }
        ensures more { IfOk result (λ found. IfSome found (λ rows. (known.old.least < known.new.least) × (known.old.least < self.now.bound))) }
        ensures follows { Follows known.old known.new }
        ensures kept { IsKept told.old told.new }
    {
        let target = StepTarget::Local(0);
        let seen = inner.unwrap_or(team);
        let rows = self.attempt_on(known, told, seen, active, line, &target, e)?;
        Ok(rows)
    }

    /// The statements of a block, in order; `false` where no run goes on.
    #[cycle(inside)]
    pub fn run_block_on(
        &self,
        known: &mut Standing,
        told: &mut Told,
        team: &mut Vec<Member>,
        inner: Option<&Vec<Member>>,
        active: &[Active],
        body: &Vec<Step>,
    ) -> Result<bool, Halt>
        // Each run of any of the sets, of which more may be known, goes on as is known, or comes to what is told.
        ensures leads { IfOk result (λ on. (m : State) (vs : List ℕ) → StandsWith known.old team.old.items m →
            IfSome inner.entry (λ t. AreKnownIn t.now.items vs m) → AreActive active.now vs →
            Leads (λ u n. (on ≡ true) × StandsWith known.new team.new.items n) told.new
            (spec.perform_list_on self.now.program.now self.now.bound body.now.items vs m)) }
        // It halts for want of memory, or at a loop of the block.
        ensures halts { IfErr result (Halts (λ u. HaveStep (IsOpenOn u) body.now.items)) }
        ensures follows { OnOk result (Follows known.old known.new) }
        // They are the same processors.
        ensures like { OnOk result (AreLike team.old.items team.new.items) }
        ensures kept { IsKept told.old told.new }
    {
        let mut more = inner;
        for s in body {
            let on = self.run_step(known, told, team, more, active, s)?;
            if !on {
                return Ok(false);
            }
            more = known_behind(more, s);
        }
        Ok(true)
    }

    /// A statement of a set, with all that it holds; `false` where no run goes on.
    #[cycle(inside)]
    fn run_step(
        &self,
        known: &mut Standing,
        told: &mut Told,
        team: &mut Vec<Member>,
        inner: Option<&Vec<Member>>,
        active: &[Active],
        s: &Step,
    ) -> Result<bool, Halt>
        ensures leads { IfOk result (λ on. (m : State) (vs : List ℕ) → StandsWith known.old team.old.items m →
            IfSome inner.entry (λ t. AreKnownIn t.now.items vs m) → AreActive active.now vs →
            Leads (λ u n. (on ≡ true) × StandsWith known.new team.new.items n) told.new
            (spec.perform_on self.now.program.now self.now.bound s.now vs m)) }
        ensures halts { IfErr result (Halts (λ u. HasStep (IsOpenOn u) s.now)) }
        ensures follows { OnOk result (Follows known.old known.new) }
        ensures like { OnOk result (AreLike team.old.items team.new.items) }
        ensures kept { IsKept told.old told.new }
    {
        match s {
            Step::Assign {
                location,
                target,
                value,
            } => {
                let on = self.assign_on(
                    known,
                    told,
                    team,
                    inner,
                    active,
                    location.line,
                    target,
                    value,
                )?;
                Ok(on)
            }
            Step::While {
                location,
                test,
                body,
            } => {
                let on = self.run_while_on(known, told, team, active, body, location.line, test)?;
                Ok(on)
            }
            Step::If {
                location,
                test,
                then_part,
                else_part,
            } => {
                let tried = self.test_on(known, told, team, inner, active, location.line, test)?;
                let Some(rows) = tried else {
                    return Ok(false);
                };
                let chosen = select(self.alloc, true, &rows)?;
                let others = select(self.alloc, false, &rows)?;
                let left = self.left_of(known, inner.unwrap_or(team), test, true)?;
                let rest = self.left_of(known, inner.unwrap_or(team), test, false)?;
                let more = left.as_ref().or(inner);
                let on = self.run_block_on(known, told, team, more, &chosen, then_part)?;
                if !on {
                    return Ok(false);
                }
                let more = rest.as_ref().or(inner);
                let off = self.run_block_on(known, told, team, more, &others, else_part)?;
                Ok(off)
            }
        }
    }

    #[cycle(inside)]
    fn run_while_on(
        &self,
        known: &mut Standing,
        told: &mut Told,
        team: &mut Vec<Member>,
        active: &[Active],
        body: &Vec<Step>,
        line: u32,
        e: &Expression,
    ) -> Result<bool, Halt>
        ensures leads { IfOk result (λ on. (m : State) (vs : List ℕ) → StandsWith known.old team.old.items m → AreActive active.now vs →
            Leads (λ u n. (on ≡ true) × StandsWith known.new team.new.items n) told.new
            (spec.turns_on (self.now.bound + 1) (spec.tested_on self.now.program.now self.now.bound line e.now)
            (spec.perform_list_on self.now.program.now self.now.bound body.now.items) vs m)) }
        ensures halts { IfErr result (Halts (λ u. (u ≡ Restless line) ⊎ HaveStep (IsOpenOn u) body.now.items)) }
        ensures follows { OnOk result (Follows known.old known.new) }
        ensures like { OnOk result (AreLike team.old.items team.new.items) }
        ensures kept { IsKept told.old told.new }
    {
        let mut current = Vec::from_slice(self.alloc, active)?;
        'turns: loop {
            let tried = self.test_on(known, told, team, None, &current, line, e)?;
            let Some(rows) = tried else {
                return Ok(false);
            };
            let chosen = select(self.alloc, true, &rows)?;
            if chosen.is_empty() {
                return Ok(true);
            }
            if !has_sure(&chosen) {
                let some = unsure(self.alloc, &chosen)?;
                let on = self.run_open_on(known, told, team, &some, body, line, e)?;
                return Ok(on);
            }
            let left = self.left_of(known, team, e, true)?;
            let more = left.as_ref();
            let on = self.run_block_on(known, told, team, more, &chosen, body)?;
            if !on {
                return Ok(false);
            }
            current = chosen;
        }
    }

    /// The turns of a loop with which all processors may be through: what is known at its test is widened until no turn adds to it.
    #[cycle(inside)]
    fn run_open_on(
        &self,
        known: &mut Standing,
        told: &mut Told,
        team: &mut Vec<Member>,
        active: &[Active],
        body: &Vec<Step>,
        line: u32,
        e: &Expression,
    ) -> Result<bool, Halt>
        requires { StayActive active.now }
        ensures leads { IfOk result (λ on. (k : ℕ) (m : State) (vs : List ℕ) → StandsWith known.old team.old.items m →
            AreWay self.now.program.now e.now true vs m → AreActive active.now vs →
            Leads (λ u n. (on ≡ true) × StandsWith known.new team.new.items n) told.new
            (after_test_on self.now.program.now self.now.bound line e.now body.now.items k vs m)) }
        ensures halts { IfErr result (Halts (λ u. (u ≡ Restless line) ⊎ HaveStep (IsOpenOn u) body.now.items)) }
        ensures follows { OnOk result (Follows known.old known.new) }
        ensures like { OnOk result (AreLike team.old.items team.new.items) }
        ensures kept { IsKept told.old told.new }
    {
        known.most = known.most.max(self.bound);
        for round in 0..MOST_ROUNDS {
            let mut inside = known.copied(self.alloc)?;
            let mut members = copied_team(self.alloc, team)?;
            let left = self.left_of(known, team, e, true)?;
            let more = left.as_ref();
            let on = self.run_block_on(&mut inside, told, &mut members, more, active, body)?;
            if !on {
                return Ok(true);
            }
            let Some(_) = self.test_on(&mut inside, told, &members, None, active, line, e)? else {
                return Ok(true);
            };
            if is_all_within(&inside, known, &members, team) {
                return Ok(true);
            }
            widen_at(known, &inside, self.marks, self.bound, round);
            widen_team_at(team, &members, self.marks, round);
        }
        Err(Halt::Undecided(Undecided::Restless { line }))
    }
}
