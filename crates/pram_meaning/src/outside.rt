//! Statements outside pardo.

ghost use Rattle.std.specs.Prelude.{◌≤◌, ◌≡◌, ◌<◌, ◌+◌, ◌∷◌, [], None, OnOk, OnErr};
ghost use Rattle.pram_model.specs.Layout.{width};
ghost use Rattle.pram_meaning.specs.Attempt.{Gives};
ghost use Rattle.pram_meaning.specs.Store.{with_uniform};
ghost use Rattle.pram_meaning.specs.Bounded.{counted, tested, perform, perform_list, turns, for_turns, for_all, pardo};
ghost use Rattle.pram_meaning.specs.Bounded as spec;
ghost use Rattle.pram_meaning.specs.Listening.{HasHeard};
ghost use Rattle.pram_meaning.specs.Moments.{Alone, Sets, Turns, Chooses, moments, list_moments, turns_moments, for_turns_moments};
ghost use Rattle.pram_meaning.specs.Moments.{for_moments, pardo_moments, test_moment, print_moment, closing};
ghost use Rattle.pram_meaning.specs.Runs.{state_of, IsBehaviour};

use crate::action::Action;
use crate::attempt::Effect;
use crate::interpreter::Interpreter;
use crate::listener::Listener;
use crate::numbers::Numbers;
use crate::run::{Halt, Run, set_number};
use pram_check::{Expression, Statement, Step};
use pram_tokens::Location;
use pram_values::is_true;
use std::alloc::AllocError;

// A uniform variable gets the next number.
fn set_next(run: &mut Run, variable: usize, numbers: &Numbers)
    ensures { state_of run.new ≡ with_uniform variable numbers.now.next (state_of run.old) }
{
    set_number(&mut run.uniforms, variable, numbers.next);
}

// Who listens is told of the next number, for which the turn of a `for` counts already.
fn tell_next<H: Listener>(
    run: &Run,
    listener: &mut H,
    location: Location,
    variable: usize,
    numbers: &Numbers,
) -> Result<(), AllocError>
    ensures heard { OnOk result (H.hears listener.old (Alone location (Sets variable) (state_of run.now) (Gives [] None)
        (with_uniform variable numbers.now.next (state_of run.now)) ∷ []) listener.new) }
    ensures refused { OnErr result (H.gives_up listener.old (Alone location (Sets variable) (state_of run.now) (Gives [] None)
        (with_uniform variable numbers.now.next (state_of run.now))) listener.new) }
{
    let effect = Effect {
        value: numbers.next,
        cell: None,
    };
    listener.acts(run, location, &Action::Sets { variable }, &[], &effect)
}

impl<'a> Interpreter<'a> {
    // The test of a `while`.
    fn run_test<H: Listener>(
        &self,
        run: &mut Run,
        listener: &mut H,
        location: Location,
        test: &Expression,
    ) -> Result<bool, Halt>
        ensures value { IsBehaviour result (state_of run.new)
            (tested self.now.program.now self.now.bound location.line test.now (state_of run.old)) }
        ensures heard { HasHeard result H.hears H.gives_up listener.old (test_moment self.now.program.now self.now.bound location
            (Turns test.now) test.now (state_of run.old)) listener.new }
        ensures more { OnOk result (run.new.count ≡ run.old.count + 1) }
        ensures below { OnOk result (run.old.count < self.now.bound) }
    {
        let value = self.run_value(run, listener, location, &Action::Turns { test }, test)?;
        Ok(is_true(value))
    }

    // The test of an `if`.
    fn run_choice<H: Listener>(
        &self,
        run: &mut Run,
        listener: &mut H,
        location: Location,
        test: &Expression,
    ) -> Result<bool, Halt>
        ensures value { IsBehaviour result (state_of run.new)
            (tested self.now.program.now self.now.bound location.line test.now (state_of run.old)) }
        ensures heard { HasHeard result H.hears H.gives_up listener.old (test_moment self.now.program.now self.now.bound location
            (Chooses test.now) test.now (state_of run.old)) listener.new }
        ensures more { OnOk result (run.new.count ≡ run.old.count + 1) }
    {
        let value = self.run_value(run, listener, location, &Action::Chooses { test }, test)?;
        Ok(is_true(value))
    }

    fn print<H: Listener>(
        &self,
        run: &mut Run,
        listener: &mut H,
        location: Location,
        value: &Expression,
    ) -> Result<(), Halt>
        ensures value { IsBehaviour result (state_of run.new) (spec.print self.now.program.now self.now.bound location.line value.now
            (state_of run.old)) }
        ensures heard { HasHeard result H.hears H.gives_up listener.old
            (print_moment self.now.program.now self.now.bound location value.now (state_of run.old)) listener.new }
        ensures grows { OnOk result (run.old.count ≤ run.new.count) }
    {
        let item = self.run_value(run, listener, location, &Action::Prints { value }, value)?;
        if run.output.push(item).is_err() {
            return Err(Halt::OutOfMemory);
        }
        Ok(())
    }

    fn run_pardo<H: Listener>(
        &self,
        run: &mut Run,
        listener: &mut H,
        body: &Vec<Step>,
        location: Location,
        low: &Expression,
        high: &Expression,
        locals: usize,
    ) -> Result<(), Halt>
        ensures value { IsBehaviour result (state_of run.new)
            (pardo self.now.program.now self.now.bound location.line low.now high.now locals
            body.now.items (state_of run.old)) }
        ensures heard { HasHeard result H.hears H.gives_up listener.old
            (pardo_moments self.now.program.now self.now.bound location low.now high.now
            locals body.now.items (state_of run.old)) listener.new }
        ensures grows { OnOk result (run.old.count ≤ run.new.count) }
    {
        let (first, count) = self.run_range(run, listener, location, low, high)?;
        self.run_team(run, listener, first, count, locals, body)
    }

    /// One statement outside pardo, with all that it holds.
    #[cycle(outside)]
    pub fn run_statement<H: Listener>(
        &self,
        run: &mut Run,
        listener: &mut H,
        s: &Statement,
    ) -> Result<(), Halt>
        ensures value { IsBehaviour result (state_of run.new) (perform self.now.program.now self.now.bound s.now (state_of run.old)) }
        ensures heard { HasHeard result H.hears H.gives_up listener.old (moments self.now.program.now self.now.bound s.now
            (state_of run.old)) listener.new }
        ensures grows { OnOk result (run.old.count ≤ run.new.count) }
    {
        match s {
            Statement::Assign {
                location,
                target,
                value,
            } => self.assign(run, listener, *location, target, value),
            Statement::Print { location, value } => self.print(run, listener, *location, value),
            Statement::While {
                location,
                test,
                body,
            } => self.run_while(run, listener, body, *location, test),
            Statement::If {
                location,
                test,
                then_part,
                else_part,
            } => {
                let holds = self.run_choice(run, listener, *location, test)?;
                if holds {
                    self.run_closed(run, listener, then_part)
                } else {
                    self.run_closed(run, listener, else_part)
                }
            }
            Statement::For {
                location,
                variable,
                low,
                high,
                body,
            } => self.run_for(run, listener, body, *location, *variable, low, high),
            Statement::Pardo {
                location,
                low,
                high,
                locals,
                body,
            } => self.run_pardo(run, listener, body, *location, low, high, *locals),
        }
    }

    #[cycle(outside)]
    fn run_while<H: Listener>(
        &self,
        run: &mut Run,
        listener: &mut H,
        body: &Vec<Statement>,
        location: Location,
        test: &Expression,
    ) -> Result<(), Halt>
        ensures value { IsBehaviour result (state_of run.new)
            (turns (self.now.bound + 1) (tested self.now.program.now self.now.bound location.line test.now)
            (perform_list self.now.program.now self.now.bound body.now.items) (state_of run.old)) }
        ensures heard { HasHeard result H.hears H.gives_up listener.old (turns_moments (self.now.bound + 1)
            (test_moment self.now.program.now self.now.bound location (Turns test.now) test.now)
            (tested self.now.program.now self.now.bound location.line test.now)
            (list_moments self.now.program.now self.now.bound body.now.items)
            (perform_list self.now.program.now self.now.bound body.now.items) (state_of run.old)) listener.new }
        ensures grows { OnOk result (run.old.count ≤ run.new.count) }
    {
        'turns: while self.run_test(run, listener, location, test)? {
            self.run_block(run, listener, body)?;
        }
        Ok(())
    }

    #[cycle(outside)]
    fn run_for<H: Listener>(
        &self,
        run: &mut Run,
        listener: &mut H,
        body: &Vec<Statement>,
        location: Location,
        variable: usize,
        low: &Expression,
        high: &Expression,
    ) -> Result<(), Halt>
        ensures value { IsBehaviour result (state_of run.new)
            (for_all self.now.program.now self.now.bound location.line variable low.now high.now
            (perform_list self.now.program.now self.now.bound body.now.items) (state_of run.old)) }
        ensures heard { HasHeard result H.hears H.gives_up listener.old
            (for_moments self.now.program.now self.now.bound location variable low.now
            high.now (list_moments self.now.program.now self.now.bound body.now.items)
            (perform_list self.now.program.now self.now.bound body.now.items) (state_of run.old)) listener.new }
        ensures grows { OnOk result (run.old.count ≤ run.new.count) }
    {
        let (first, last) = self.run_bounds(run, listener, location, low, high)?;
        let numbers = Numbers { next: first, last };
        self.run_turns(run, listener, body, location, variable, &numbers)
    }

    // The turns of a `for`, one for each number.
    #[cycle(outside)]
    fn run_turns<H: Listener>(
        &self,
        run: &mut Run,
        listener: &mut H,
        body: &Vec<Statement>,
        location: Location,
        variable: usize,
        numbers: &Numbers,
    ) -> Result<(), Halt>
        ensures value { IsBehaviour result (state_of run.new) (for_turns self.now.bound (width numbers.now.next numbers.now.last) variable
            numbers.now.next (perform_list self.now.program.now self.now.bound body.now.items) (state_of run.old)) }
        ensures heard { HasHeard result H.hears H.gives_up listener.old (for_turns_moments self.now.bound location
            (width numbers.now.next numbers.now.last) variable numbers.now.next
            (list_moments self.now.program.now self.now.bound body.now.items)
            (perform_list self.now.program.now self.now.bound body.now.items) (state_of run.old)) listener.new }
        ensures grows { OnOk result (run.old.count ≤ run.new.count) }
    {
        if numbers.is_empty() {
            return Ok(());
        }
        let mut left = *numbers;
        'turns: loop {
            self.begin(run)?;
            tell_next(run, listener, location, variable, &left)?;
            set_next(run, variable, &left);
            self.run_closed(run, listener, body)?;
            if left.is_at_end() {
                return Ok(());
            }
            left.advance();
        }
    }

    // A block that closes, however it came out. Who has given up is told no more.
    #[cycle(outside)]
    fn run_closed<H: Listener>(
        &self,
        run: &mut Run,
        listener: &mut H,
        body: &Vec<Statement>,
    ) -> Result<(), Halt>
        ensures value { IsBehaviour result (state_of run.new) (perform_list self.now.program.now self.now.bound body.now.items
            (state_of run.old)) }
        ensures heard { HasHeard result H.hears H.gives_up listener.old (closing (list_moments self.now.program.now self.now.bound
            body.now.items (state_of run.old))) listener.new }
        ensures grows { OnOk result (run.old.count ≤ run.new.count) }
    {
        let done = self.run_block(run, listener, body);
        if let Err(Halt::OutOfMemory) = done {
            return done;
        }
        listener.closes()?;
        done
    }

    /// The statements of a block, in order.
    #[cycle(outside)]
    fn run_block<H: Listener>(
        &self,
        run: &mut Run,
        listener: &mut H,
        body: &Vec<Statement>,
    ) -> Result<(), Halt>
        ensures value { IsBehaviour result (state_of run.new) (perform_list self.now.program.now self.now.bound body.now.items
            (state_of run.old)) }
        ensures heard { HasHeard result H.hears H.gives_up listener.old (list_moments self.now.program.now self.now.bound body.now.items
            (state_of run.old)) listener.new }
        ensures grows { OnOk result (run.old.count ≤ run.new.count) }
    {
        for s in body {
            self.run_statement(run, listener, s)?;
        }
        Ok(())
    }

    /// The whole body of a program.
    pub(crate) fn run_body<H: Listener>(&self, run: &mut Run, listener: &mut H) -> Result<(), Halt>
        ensures value { IsBehaviour result (state_of run.new) (perform_list self.now.program.now self.now.bound self.now.program.now.body
            (state_of run.old)) }
        ensures heard { HasHeard result H.hears H.gives_up listener.old (list_moments self.now.program.now self.now.bound
            self.now.program.now.body (state_of run.old)) listener.new }
    {
        for s in self.program.body() {
            self.run_statement(run, listener, s)?;
        }
        Ok(())
    }
}
