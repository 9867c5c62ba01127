//! Statements inside pardo.

ghost use Rattle.std.specs.Prelude.{FitsSigned, ◌+ℤ◌, pos, ◌≡◌, ◌≤◌, ◌-◌, ◌+◌, OnOk};
ghost use Rattle.std.specs.Int.{w64};
ghost use Rattle.pram_meaning.specs.Bounded.{perform_on, perform_list_on, turns_on, tested_on, pardo_done};
ghost use Rattle.pram_meaning.specs.Listening.{HasHeard};
ghost use Rattle.pram_meaning.specs.Moments.{TurnsOn, inner_moments, inner_list_moments, set_test_moment, turns_on_moments};
ghost use Rattle.pram_meaning.specs.Runs.{state_of, IsBehaviour};
ghost use Rattle.pram_meaning.specs.Sets.{state_in};
ghost use Rattle.pram_meaning.specs.Store.{numbers, with_team};

use crate::interpreter::Interpreter;
use crate::listener::Listener;
use crate::run::{Halt, Run};
use crate::team::{Member, gather, numbers_below};
use crate::together::select;
use pram_check::{Expression, Step};
use pram_tokens::Location;

impl<'a> Interpreter<'a> {
    /// A statement of a set, with all that it holds.
    #[cycle(inside)]
    fn run_step<H: Listener>(
        &self,
        run: &mut Run,
        listener: &mut H,
        team: &mut Vec<Member>,
        active: &Vec<u32>,
        s: &Step,
    ) -> Result<(), Halt>
        ensures value { IsBehaviour result (state_in run.new team.new.items)
            (perform_on self.now.program.now self.now.bound s.now active.now.items (state_in run.old team.old.items)) }
        ensures heard { HasHeard result H.hears H.gives_up listener.old (inner_moments self.now.program.now self.now.bound s.now
            active.now.items (state_in run.old team.old.items)) listener.new }
        ensures grows { OnOk result (run.old.count ≤ run.new.count) }
    {
        match s {
            Step::Assign {
                location,
                target,
                value,
            } => self.assign_on(run, listener, team, active, *location, target, value),
            Step::While {
                location,
                test,
                body,
            } => self.run_while_on(run, listener, team, active, body, *location, test),
            Step::If {
                location,
                test,
                then_part,
                else_part,
            } => {
                let all = self.choice_on(run, listener, team, active, *location, test)?;
                let chosen = select(self.alloc, true, &all)?;
                let others = select(self.alloc, false, &all)?;
                self.run_block_on(run, listener, team, &chosen, then_part)?;
                self.run_block_on(run, listener, team, &others, else_part)
            }
        }
    }

    #[cycle(inside)]
    fn run_while_on<H: Listener>(
        &self,
        run: &mut Run,
        listener: &mut H,
        team: &mut Vec<Member>,
        active: &Vec<u32>,
        body: &Vec<Step>,
        location: Location,
        test: &Expression,
    ) -> Result<(), Halt>
        ensures value { IsBehaviour result (state_in run.new team.new.items)
            (turns_on (self.now.bound + 1) (tested_on self.now.program.now self.now.bound location.line test.now)
            (perform_list_on self.now.program.now self.now.bound body.now.items) active.now.items (state_in run.old team.old.items)) }
        ensures heard { HasHeard result H.hears H.gives_up listener.old (turns_on_moments (self.now.bound + 1)
            (set_test_moment self.now.program.now self.now.bound location (TurnsOn test.now) test.now)
            (tested_on self.now.program.now self.now.bound location.line test.now)
            (inner_list_moments self.now.program.now self.now.bound body.now.items)
            (perform_list_on self.now.program.now self.now.bound body.now.items) active.now.items (state_in run.old team.old.items))
            listener.new }
        ensures grows { OnOk result (run.old.count ≤ run.new.count) }
    {
        let mut current = Vec::from_slice(self.alloc, active)?;
        'turns: loop {
            let all = self.test_on(run, listener, team, &current, location, test)?;
            let chosen = select(self.alloc, true, &all)?;
            if chosen.is_empty() {
                return Ok(());
            }
            self.run_block_on(run, listener, team, &chosen, body)?;
            current = chosen;
        }
    }

    /// The statements of a block, in order.
    #[cycle(inside)]
    fn run_block_on<H: Listener>(
        &self,
        run: &mut Run,
        listener: &mut H,
        team: &mut Vec<Member>,
        active: &Vec<u32>,
        body: &Vec<Step>,
    ) -> Result<(), Halt>
        ensures value { IsBehaviour result (state_in run.new team.new.items)
            (perform_list_on self.now.program.now self.now.bound body.now.items active.now.items (state_in run.old team.old.items)) }
        ensures heard { HasHeard result H.hears H.gives_up listener.old
            (inner_list_moments self.now.program.now self.now.bound body.now.items
            active.now.items (state_in run.old team.old.items)) listener.new }
        ensures grows { OnOk result (run.old.count ≤ run.new.count) }
    {
        for s in body {
            self.run_step(run, listener, team, active, s)?;
        }
        Ok(())
    }

    /// The body of a pardo, on all its processors.
    pub fn run_team<H: Listener>(
        &self,
        run: &mut Run,
        listener: &mut H,
        low: i64,
        count: u32,
        locals: usize,
        body: &Vec<Step>,
    ) -> Result<(), Halt>
        requires { FitsSigned w64 (low +ℤ pos (count - 1)) }
        ensures value { IsBehaviour result (state_of run.new) (pardo_done self.now.program.now self.now.bound locals body.now.items low
            count (state_of run.old)) }
        ensures heard { HasHeard result H.hears H.gives_up listener.old
            (inner_list_moments self.now.program.now self.now.bound body.now.items
            (numbers 0 count) (with_team low count locals (state_of run.old))) listener.new }
        ensures grows { OnOk result (run.old.count ≤ run.new.count) }
    {
        let mut team = gather(self.alloc, low, count, locals)?;
        let active = numbers_below(self.alloc, count)?;
        self.run_block_on(run, listener, &mut team, &active, body)
    }
}
