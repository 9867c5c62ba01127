//! A statement outside pardo: one processor's value.

ghost use Rattle.std.specs.Prelude.{◌≡◌, [], ◌-◌, ◌+◌, ◌<◌, ◌≤◌, ◌+ℤ◌, pos, FitsSigned, IfOk, OnOk, None};
ghost use Rattle.std.specs.Int.{w64};
ghost use Rattle.pram_meaning.specs.Attempt.{attempt, attempt_assign, attempt_bounds, attempt_range};
ghost use Rattle.pram_meaning.specs.Bounded.{counted, evaluated, found};
ghost use Rattle.pram_meaning.specs.Bounded as spec;
ghost use Rattle.pram_meaning.specs.Listening.{action_is, done_by, HasHeard};
ghost use Rattle.pram_meaning.specs.Moments.{alone_moment, assign_moment, bounds_moment, nowhere, range_moment};
ghost use Rattle.pram_meaning.specs.Runs.{state_of, view_is, effect_is, IsAttempt, IsBehaviour, IsEffect, IsPair};
ghost use Rattle.pram_meaning.specs.Store.{seen};
ghost use Rattle.pram_meaning.specs.Together.{assigned};

use crate::action::Action;
use crate::attempt::{Effect, Failure, assignment, bounds, range, value_of};
use crate::interpreter::Interpreter;
use crate::listener::Listener;
use crate::run::{Halt, Run, set_number};
use crate::view::View;
use pram_check::{Expression, Program, Target};
use pram_tokens::Location;
use pram_values::{Kind, Place};
use write_rules::Fault;

// What the one processor sees.
fn view_of<'a>(program: &'a Program, run: &'a Run, no_locals: &'a Vec<i64>) -> View<'a>
    requires { no_locals.now.items ≡ [] }
    ensures { view_is result ≡ seen program.now (state_of run.now) }
{
    View {
        layout: program.layout(),
        uniforms: &run.uniforms,
        cells: &run.cells,
        index: 0,
        locals: no_locals,
    }
}

// A fault of the one processor.
fn fault_at(kind: Kind, location: Location) -> Halt
    ensures { result ≡ Halt.Fault (record { kind = kind; line = location.line; place = Place.All }) }
{
    Halt::Fault(Fault {
        kind,
        line: location.line,
        place: Place::All,
    })
}

// The store gets what an assignment gives.
fn store(run: &mut Run, target: &Target, effect: &Effect)
    ensures { state_of run.new ≡ assigned target.now (effect_is effect.now) (state_of run.old) }
{
    match target {
        Target::Uniform(x) => set_number(&mut run.uniforms, *x, effect.value),
        Target::Cell(_) | Target::Element(_, _) => {
            if let Some(cell) = effect.cell {
                set_number(&mut run.cells, cell as usize, effect.value);
            }
        }
    }
}

impl<'a> Interpreter<'a> {
    // The attempts of the one processor.
    fn try_value(
        &self,
        run: &Run,
        e: &Expression,
        trail: &mut Vec<Option<u32>>,
    ) -> Result<i64, Failure>
        requires { trail.old.items ≡ [] }
        ensures { IsAttempt result trail.new.items (attempt (seen self.now.program.now (state_of run.now)) e.now []) }
    {
        let no_locals: Vec<i64> = Vec::new(self.alloc);
        value_of(&view_of(self.program, run, &no_locals), e, trail)
    }

    fn try_effect(
        &self,
        run: &Run,
        target: &Target,
        e: &Expression,
        trail: &mut Vec<Option<u32>>,
    ) -> Result<Effect, Failure>
        requires { trail.old.items ≡ [] }
        ensures { IsEffect result trail.new.items (attempt_assign (seen self.now.program.now (state_of run.now)) target.now e.now) }
    {
        let no_locals: Vec<i64> = Vec::new(self.alloc);
        assignment(&view_of(self.program, run, &no_locals), target, e, trail)
    }

    fn try_bounds(
        &self,
        run: &Run,
        low: &Expression,
        high: &Expression,
        trail: &mut Vec<Option<u32>>,
    ) -> Result<(i64, i64), Failure>
        requires { trail.old.items ≡ [] }
        ensures { IsPair result trail.new.items (attempt_bounds (seen self.now.program.now (state_of run.now)) low.now high.now) }
    {
        let no_locals: Vec<i64> = Vec::new(self.alloc);
        bounds(&view_of(self.program, run, &no_locals), low, high, trail)
    }

    // The last index of the range is a number of 64 bits.
    fn try_range(
        &self,
        run: &Run,
        low: &Expression,
        high: &Expression,
        trail: &mut Vec<Option<u32>>,
    ) -> Result<(i64, u32), Failure>
        requires { trail.old.items ≡ [] }
        ensures range { IsPair result trail.new.items
            (attempt_range self.now.program.now.procs (seen self.now.program.now (state_of run.now)) low.now high.now) }
        ensures fits { IfOk result (λ r. FitsSigned w64 (r.0 +ℤ pos (r.1 - 1))) }
    {
        let no_locals: Vec<i64> = Vec::new(self.alloc);
        range(
            self.program.procs(),
            &view_of(self.program, run, &no_locals),
            low,
            high,
            trail,
        )
    }
}

// Each statement counts first, then it is attempted, and then who listens is told, before the run changes.
impl<'a> Interpreter<'a> {
    /// One statement more.
    pub fn begin(&self, run: &mut Run) -> Result<(), Halt>
        ensures counts { IsBehaviour result (state_of run.new) (counted self.now.bound (state_of run.old)) }
        ensures more { OnOk result (run.new.count ≡ run.old.count + 1) }
        ensures below { OnOk result (run.old.count < self.now.bound) }
    {
        if self.bound <= run.count {
            return Err(Halt::Bound);
        }
        run.count += 1;
        Ok(())
    }

    /// The value of an expression.
    pub fn run_value<H: Listener>(
        &self,
        run: &mut Run,
        listener: &mut H,
        location: Location,
        action: &Action,
        e: &Expression,
    ) -> Result<i64, Halt>
        ensures value { IsBehaviour result (state_of run.new) (found self.now.program.now self.now.bound location.line e.now
            (state_of run.old)) }
        ensures heard { HasHeard result H.hears H.gives_up listener.old (alone_moment self.now.bound location (action_is action.now) nowhere
            (λ v. done_by (action_is action.now) (record { value = v; cell = None }))
            (λ m. attempt (seen self.now.program.now m) e.now []) (state_of run.old)) listener.new }
        ensures more { OnOk result (run.new.count ≡ run.old.count + 1) }
        ensures below { OnOk result (run.old.count < self.now.bound) }
    {
        self.begin(run)?;
        let mut trail = Vec::new(self.alloc);
        match self.try_value(run, e, &mut trail) {
            Ok(value) => {
                listener.acts(run, location, action, &trail, &Effect { value, cell: None })?;
                Ok(value)
            }
            Err(Failure::Fault(kind)) => {
                listener.fails(run, location, action, &trail, kind)?;
                Err(fault_at(kind, location))
            }
            Err(Failure::OutOfMemory) => Err(Halt::OutOfMemory),
        }
    }

    /// An assignment.
    pub fn assign<H: Listener>(
        &self,
        run: &mut Run,
        listener: &mut H,
        location: Location,
        target: &Target,
        value: &Expression,
    ) -> Result<(), Halt>
        ensures value { IsBehaviour result (state_of run.new)
            (spec.assign self.now.program.now self.now.bound location.line target.now value.now
            (state_of run.old)) }
        ensures heard { HasHeard result H.hears H.gives_up listener.old
            (assign_moment self.now.program.now self.now.bound location target.now value.now (state_of run.old)) listener.new }
        ensures grows { OnOk result (run.old.count ≤ run.new.count) }
    {
        self.begin(run)?;
        let action = Action::Assigns { target, value };
        let mut trail = Vec::new(self.alloc);
        match self.try_effect(run, target, value, &mut trail) {
            Ok(effect) => {
                listener.acts(run, location, &action, &trail, &effect)?;
                store(run, target, &effect);
                Ok(())
            }
            Err(Failure::Fault(kind)) => {
                listener.fails(run, location, &action, &trail, kind)?;
                Err(fault_at(kind, location))
            }
            Err(Failure::OutOfMemory) => Err(Halt::OutOfMemory),
        }
    }

    /// The bounds of a `for`, the low one first.
    pub fn run_bounds<H: Listener>(
        &self,
        run: &mut Run,
        listener: &mut H,
        location: Location,
        low: &Expression,
        high: &Expression,
    ) -> Result<(i64, i64), Halt>
        ensures value { IsBehaviour result (state_of run.new)
            (evaluated self.now.bound location.line (λ m. attempt_bounds (seen self.now.program.now m) low.now high.now)
            (state_of run.old)) }
        ensures heard { HasHeard result H.hears H.gives_up listener.old
            (bounds_moment self.now.program.now self.now.bound location low.now high.now (state_of run.old)) listener.new }
        ensures more { OnOk result (run.new.count ≡ run.old.count + 1) }
    {
        self.begin(run)?;
        let action = Action::Bounds { low, high };
        let mut trail = Vec::new(self.alloc);
        match self.try_bounds(run, low, high, &mut trail) {
            Ok((first, last)) => {
                let effect = Effect {
                    value: first,
                    cell: None,
                };
                listener.acts(run, location, &action, &trail, &effect)?;
                Ok((first, last))
            }
            Err(Failure::Fault(kind)) => {
                listener.fails(run, location, &action, &trail, kind)?;
                Err(fault_at(kind, location))
            }
            Err(Failure::OutOfMemory) => Err(Halt::OutOfMemory),
        }
    }

    /// The first index of a pardo, and how many there are.
    pub fn run_range<H: Listener>(
        &self,
        run: &mut Run,
        listener: &mut H,
        location: Location,
        low: &Expression,
        high: &Expression,
    ) -> Result<(i64, u32), Halt>
        ensures value { IsBehaviour result (state_of run.new) (evaluated self.now.bound location.line
            (λ m. attempt_range self.now.program.now.procs (seen self.now.program.now m) low.now high.now) (state_of run.old)) }
        ensures heard { HasHeard result H.hears H.gives_up listener.old
            (range_moment self.now.program.now self.now.bound location low.now high.now (state_of run.old)) listener.new }
        ensures more { OnOk result (run.new.count ≡ run.old.count + 1) }
        // The last index of the range is a number of 64 bits.
        ensures fits { IfOk result (λ r. FitsSigned w64 (r.0 +ℤ pos (r.1 - 1))) }
    {
        self.begin(run)?;
        let action = Action::Ranges { low, high };
        let mut trail = Vec::new(self.alloc);
        match self.try_range(run, low, high, &mut trail) {
            Ok((first, count)) => {
                let effect = Effect {
                    value: first,
                    cell: None,
                };
                listener.acts(run, location, &action, &trail, &effect)?;
                Ok((first, count))
            }
            Err(Failure::Fault(kind)) => {
                listener.fails(run, location, &action, &trail, kind)?;
                Err(fault_at(kind, location))
            }
            Err(Failure::OutOfMemory) => Err(Halt::OutOfMemory),
        }
    }
}
