//! A statement on a set of processors.

ghost use Rattle.std.specs.Prelude.{◌≡◌, IfSome, IfOk, OnOk, ◌++◌, map, ◌<◌, ◌≤◌, ◌+◌};
ghost use Rattle.pram_meaning.specs.Attempt.{attempt_step};
ghost use Rattle.pram_meaning.specs.Together.{assigned_by, part_of, parts, overwritten, those, those_of};
ghost use Rattle.pram_meaning.specs.Bounded.{counted, attempted_on, tested_on};
ghost use Rattle.pram_meaning.specs.Bounded as spec;
ghost use Rattle.pram_meaning.specs.Runs.{IsBehaviour};
ghost use Rattle.pram_meaning.specs.Conflict.{keys, least};
ghost use Rattle.pram_meaning.specs.Judging.{part_is, with_value};
ghost use Rattle.pram_meaning.specs.Listening.{step_action_is, done_on, HasHeard};
ghost use Rattle.pram_meaning.specs.Moments.{TurnsOn, ChoosesOn, set_moment, set_assign_moment, set_test_moment};
ghost use Rattle.pram_meaning.specs.Sets.{state_in, IsParts};

use crate::access::Judged;
use crate::action::StepAction;
use crate::ascent::{are_apart, put_apart};
use crate::attempt::{Failure, step_assignment};
use crate::conflict::least_key;
use crate::interpreter::Interpreter;
use crate::key::Key;
use crate::listener::Listener;
use crate::part::Part;
use crate::run::{Halt, Run, set_number};
use crate::slate::Slate;
use crate::team::{Member, set_locals, value_in};
use crate::view::View;
use pram_check::{Expression, StepTarget};
use pram_tokens::Location;
use pram_trees::Rule;
use pram_values::is_true;
use std::alloc::{AllocError, Global};
use write_rules::Fault;

// Few statements have more positions: so many have room without a second allocation.
const MOST_POSITIONS: usize = 8;

// A fault of a set.
fn fault_at(key: Key, location: Location) -> Halt
    ensures { result ≡ Halt.Fault (record { kind = key.kind; line = location.line; place = key.place }) }
{
    Halt::Fault(Fault {
        kind: key.kind,
        line: location.line,
        place: key.place,
    })
}

impl<'a> Interpreter<'a> {
    // One processor's attempt at an assignment.
    fn part_in(
        &self,
        run: &Run,
        team: &Vec<Member>,
        v: u32,
        target: &StepTarget,
        e: &Expression,
    ) -> Option<Part>
        ensures { IfSome result (λ x. part_is x ≡ part_of self.now.program.now (state_in run.now team.now.items)
            (λ s. attempt_step s target.now e.now) v) }
    {
        let no_locals: Vec<i64> = Vec::new(self.alloc);
        let (index, locals) = match team.get(v as usize) {
            Some(member) => (member.index, &member.locals),
            None => (0, &no_locals),
        };
        let view = View {
            layout: self.program.layout(),
            uniforms: &run.uniforms,
            cells: &run.cells,
            index,
            locals,
        };
        let Ok(mut trail) = Vec::with_capacity(self.alloc, MOST_POSITIONS) else {
            return None;
        };
        let outcome = match step_assignment(&view, target, e, &mut trail) {
            Ok(effect) => Ok(effect),
            Err(Failure::Fault(kind)) => Err(kind),
            Err(Failure::OutOfMemory) => return None,
        };
        Some(Part {
            member: v,
            processor: index,
            trail,
            outcome,
        })
    }

    // The attempts of all processors of a set.
    fn parts_in(
        &self,
        run: &Run,
        team: &Vec<Member>,
        active: &Vec<u32>,
        target: &StepTarget,
        e: &Expression,
    ) -> Option<Vec<Part>>
        ensures { IfSome result (λ xs. map part_is xs.items ≡ parts self.now.program.now (state_in run.now team.now.items)
            (λ s. attempt_step s target.now e.now) active.now.items) }
    {
        let Ok(mut all) = Vec::with_capacity(self.alloc, active.len()) else {
            return None;
        };
        for v in active {
            let x = self.part_in(run, team, *v, target, e)?;
            if all.push(x).is_err() {
                return None;
            }
        }
        Some(all)
    }

    // One statement more, inside pardo.
    fn begin_on(&self, run: &mut Run, team: &Vec<Member>) -> Result<(), Halt>
        ensures counts { IsBehaviour result (state_in run.new team.now.items) (counted self.now.bound (state_in run.old team.now.items)) }
        ensures more { OnOk result (run.new.count ≡ run.old.count + 1) }
        ensures below { OnOk result (run.old.count < self.now.bound) }
    {
        if self.bound <= run.count {
            return Err(Halt::Bound);
        }
        run.count += 1;
        Ok(())
    }

    // What a statement of a set comes to, where it has begun: its parts, and its least fault, if it has one.
    fn judge(
        &self,
        run: &mut Run,
        team: &Vec<Member>,
        active: &Vec<u32>,
        target: &StepTarget,
        e: &Expression,
    ) -> Option<(Vec<Part>, Option<Key>)>
        ensures parts { IfSome result (λ r. map part_is r.0.items ≡ parts self.now.program.now (state_in run.old team.now.items)
            (λ s. attempt_step s target.now e.now) active.now.items) }
        ensures least { IfSome result (λ r. r.1 ≡ least (keys self.now.program.now.rule (map part_is r.0.items))) }
        ensures kept { state_in run.new team.now.items ≡ state_in run.old team.now.items }
        ensures count { run.new.count ≡ run.old.count }
    {
        let all = self.parts_in(run, team, active, target, e)?;
        match least_key(self.alloc, &mut run.slate, self.program.rule(), &all) {
            Ok(key) => Some((all, key)),
            Err(_) => None,
        }
    }

    // A statement of a set: it counts, who listens is told of it, and then its least fault, or the parts.
    fn attempt_on<H: Listener>(
        &self,
        run: &mut Run,
        listener: &mut H,
        team: &Vec<Member>,
        active: &Vec<u32>,
        location: Location,
        action: &StepAction,
        target: &StepTarget,
        e: &Expression,
    ) -> Result<Vec<Part>, Halt>
        ensures value { IsParts result (state_in run.new team.now.items)
            (attempted_on self.now.program.now self.now.bound location.line (λ s. attempt_step s target.now e.now) active.now.items
            (state_in run.old team.now.items)) }
        ensures heard { HasHeard result H.hears H.gives_up listener.old (set_moment self.now.program.now self.now.bound location
            (step_action_is action.now) (done_on self.now.program.now (step_action_is action.now)) (λ s. attempt_step s target.now e.now)
            active.now.items (state_in run.old team.now.items)) listener.new }
        ensures more { OnOk result (run.new.count ≡ run.old.count + 1) }
        ensures below { OnOk result (run.old.count < self.now.bound) }
    {
        self.begin_on(run, team)?;
        let Some((all, key)) = self.judge(run, team, active, target, e) else {
            return Err(Halt::OutOfMemory);
        };
        match key {
            None => {
                listener.acts_on(self.program, run, team, location, action, &all)?;
                Ok(all)
            }
            Some(key) => {
                listener.fails_on(run, team, location, action, &all, key)?;
                Err(fault_at(key, location))
            }
        }
    }
}

fn add_those(chosen: &mut Vec<u32>, wanted: bool, x: &Part) -> Result<(), AllocError>
    ensures { OnOk result (chosen.new.items ≡ chosen.old.items ++ those_of wanted (part_is x.now)) }
{
    if is_true(value_in(x)) == wanted {
        chosen.push(x.member)?;
    }
    Ok(())
}

/// The members whose test comes out as wanted.
pub fn select(alloc: Global, wanted: bool, parts: &Vec<Part>) -> Result<Vec<u32>, AllocError>
    ensures { IfOk result (λ chosen. chosen.items ≡ those wanted (map part_is parts.now.items)) }
{
    let mut chosen = Vec::new(alloc);
    for x in parts {
        add_those(&mut chosen, wanted, x)?;
    }
    Ok(chosen)
}

// A cell gets what its writers leave.
fn write_back(cells: &mut Vec<i64>, said: &Judged)
    ensures { cells.new.items ≡ with_value said.now.access.cell said.now.verdict cells.old.items }
{
    if let Ok(value) = said.verdict {
        set_number(cells, said.access.cell as usize, value);
    }
}

// The cells get what their writers leave, as the slate has it.
fn overwrite_judged(
    alloc: Global,
    slate: &mut Slate,
    rule: Rule,
    cells: &mut Vec<i64>,
    parts: &[Part],
) -> Result<(), AllocError>
    ensures { OnOk result (cells.new.items ≡ overwritten rule (map part_is parts.now) 0 cells.old.items) }
{
    let said = slate.judge_writes(alloc, rule, parts)?;
    for one in &said {
        write_back(cells, one);
    }
    Ok(())
}

/// The cells get what their writers leave. The error is that memory was refused.
pub fn overwrite(
    alloc: Global,
    slate: &mut Slate,
    rule: Rule,
    cells: &mut Vec<i64>,
    parts: &[Part],
) -> Result<(), AllocError>
    ensures { OnOk result (cells.new.items ≡ overwritten rule (map part_is parts.now) 0 cells.old.items) }
{
    if are_apart(rule, parts) {
        put_apart(cells, parts);
        return Ok(());
    }
    overwrite_judged(alloc, slate, rule, cells, parts)
}

impl<'a> Interpreter<'a> {
    /// The store gets what the parts of an assignment leave. The error is that memory was refused.
    pub fn settle_on(
        &self,
        run: &mut Run,
        team: &mut Vec<Member>,
        target: &StepTarget,
        parts: &[Part],
    ) -> Result<(), AllocError>
        ensures left { OnOk result (state_in run.new team.new.items ≡ assigned_by self.now.program.now target.now (map part_is parts.now)
            (state_in run.old team.old.items)) }
        ensures count { run.new.count ≡ run.old.count }
    {
        match target {
            StepTarget::Local(x) => set_locals(team, *x, parts),
            StepTarget::Cell(_) | StepTarget::Element(_, _) => overwrite(
                self.alloc,
                &mut run.slate,
                self.program.rule(),
                &mut run.cells,
                parts,
            )?,
        }
        Ok(())
    }

    /// An assignment of a set.
    pub fn assign_on<H: Listener>(
        &self,
        run: &mut Run,
        listener: &mut H,
        team: &mut Vec<Member>,
        active: &Vec<u32>,
        location: Location,
        target: &StepTarget,
        e: &Expression,
    ) -> Result<(), Halt>
        ensures value { IsBehaviour result (state_in run.new team.new.items)
            (spec.assign_on self.now.program.now self.now.bound location.line target.now e.now active.now.items
            (state_in run.old team.old.items)) }
        ensures heard { HasHeard result H.hears H.gives_up listener.old
            (set_assign_moment self.now.program.now self.now.bound location target.now
            e.now active.now.items (state_in run.old team.old.items)) listener.new }
        ensures grows { OnOk result (run.old.count ≤ run.new.count) }
    {
        let action = StepAction::Assigns { target, value: e };
        let all = self.attempt_on(run, listener, team, active, location, &action, target, e)?;
        self.settle_on(run, team, target, &all)?;
        Ok(())
    }

    /// The test of a `while` of a set. It is evaluated as what a local gets, and nothing gets it.
    pub fn test_on<H: Listener>(
        &self,
        run: &mut Run,
        listener: &mut H,
        team: &Vec<Member>,
        active: &Vec<u32>,
        location: Location,
        test: &Expression,
    ) -> Result<Vec<Part>, Halt>
        ensures value { IsParts result (state_in run.new team.now.items)
            (tested_on self.now.program.now self.now.bound location.line test.now
            active.now.items (state_in run.old team.now.items)) }
        ensures heard { HasHeard result H.hears H.gives_up listener.old (set_test_moment self.now.program.now self.now.bound location
            (TurnsOn test.now) test.now active.now.items (state_in run.old team.now.items)) listener.new }
        ensures more { OnOk result (run.new.count ≡ run.old.count + 1) }
        ensures below { OnOk result (run.old.count < self.now.bound) }
    {
        let none = StepTarget::Local(0);
        let action = StepAction::Turns { test };
        self.attempt_on(run, listener, team, active, location, &action, &none, test)
    }

    /// The test of an `if` of a set, likewise.
    pub fn choice_on<H: Listener>(
        &self,
        run: &mut Run,
        listener: &mut H,
        team: &Vec<Member>,
        active: &Vec<u32>,
        location: Location,
        test: &Expression,
    ) -> Result<Vec<Part>, Halt>
        ensures value { IsParts result (state_in run.new team.now.items)
            (tested_on self.now.program.now self.now.bound location.line test.now
            active.now.items (state_in run.old team.now.items)) }
        ensures heard { HasHeard result H.hears H.gives_up listener.old (set_test_moment self.now.program.now self.now.bound location
            (ChoosesOn test.now) test.now active.now.items (state_in run.old team.now.items)) listener.new }
        ensures more { OnOk result (run.new.count ≡ run.old.count + 1) }
    {
        let none = StepTarget::Local(0);
        let action = StepAction::Chooses { test };
        self.attempt_on(run, listener, team, active, location, &action, &none, test)
    }
}
