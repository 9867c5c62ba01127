//! A run that is searched for a loop that comes back to a state that it had.

ghost use Rattle.std.specs.Prelude.{◌≡◌, ◌≤◌, ◌+◌, IfOk, OnOk};
ghost use Rattle.pram_tokens.specs.declared.token.Location.{Location};
ghost use Rattle.pram_meaning.specs.Attempt.{attempt_bounds};
ghost use Rattle.pram_meaning.specs.Meaning.{Begins, Ends, Evaluated, Tested};
ghost use Rattle.pram_meaning.specs.Store.{State, seen, with_uniform};
ghost use Rattle.pram_meaning.specs.Runs.{state_of};
ghost use Rattle.endless_runs.specs.Search.{IsKnown, of_for, of_list, of_loop, of_statement, of_turns};

use crate::kept::Keeper;
use crate::stop::Stop;
use observing::Watch;
use pram_check::{Expression, Statement};
use pram_meaning::action::Action;
use pram_meaning::interpreter::Interpreter;
use pram_meaning::numbers::Numbers;
use pram_meaning::run::{Halt, Run, set_number};
use pram_meaning::silent::Silent;
use pram_tokens::Location;
use pram_values::is_true;

/// Who searches a run.
#[derive(Clone, Copy)]
pub(crate) struct Search<'a> {
    pub(crate) interpreter: Interpreter<'a>,
}

impl<'a> Search<'a> {
    // A test.
    #[tactic(auto, using(crate::proofs::Walk::ran_found))]
    fn test(
        &self,
        run: &mut Run,
        location: Location,
        action: &Action,
        test: &Expression,
    ) -> Result<bool, Halt>
        requires within { run.old.count ≤ self.now.interpreter.bound }
        ensures tested { IfOk result (λ holds. Tested self.now.interpreter.program.now location.line test.now (state_of run.old)
            (Ends holds (state_of run.new))) }
        ensures more { OnOk result (run.new.count ≡ run.old.count + 1) }
        ensures within { OnOk result (run.new.count ≤ self.now.interpreter.bound) }
    {
        let value = self
            .interpreter
            .run_value(run, &mut Silent {}, location, action, test)?;
        Ok(is_true(value))
    }

    // A statement that is no loop of the one processor: it is run.
    fn run(&self, run: &mut Run, s: &Statement) -> Result<(), Stop>
        requires within { run.old.count ≤ self.now.interpreter.bound }
        ensures known { IsKnown (of_statement self.now.interpreter.program.now s.now (state_of run.old)) (state_of run.new) result }
        ensures grows { OnOk result (run.old.count ≤ run.new.count) }
        ensures within { OnOk result (run.new.count ≤ self.now.interpreter.bound) }
    {
        match self.interpreter.run_statement(run, &mut Silent {}, s) {
            Ok(()) => Ok(()),
            Err(_) => Err(Stop::Unknown),
        }
    }

    // The numbers of a `for`.
    fn bounds(
        &self,
        run: &mut Run,
        location: Location,
        low: &Expression,
        high: &Expression,
    ) -> Result<Numbers, Halt>
        requires within { run.old.count ≤ self.now.interpreter.bound }
        ensures bounds { IfOk result (λ r. Evaluated location.line
            (λ m. attempt_bounds (seen self.now.interpreter.program.now m) low.now high.now) (state_of run.old)
            (Ends (r.next, r.last) (state_of run.new))) }
        ensures grows { OnOk result (run.old.count ≤ run.new.count) }
        ensures within { OnOk result (run.new.count ≤ self.now.interpreter.bound) }
    {
        let (next, last) = self
            .interpreter
            .run_bounds(run, &mut Silent {}, location, low, high)?;
        Ok(Numbers { next, last })
    }

    // A turn of a `for` begins: its variable gets the next number.
    fn set_next(&self, run: &mut Run, variable: usize, numbers: &Numbers) -> Result<(), Halt>
        requires within { run.old.count ≤ self.now.interpreter.bound }
        ensures set { OnOk result ((mid : State) × Begins (state_of run.old) (Ends tt mid)
            × (state_of run.new ≡ with_uniform variable numbers.now.next mid)) }
        ensures more { OnOk result (run.new.count ≡ run.old.count + 1) }
        ensures within { OnOk result (run.new.count ≤ self.now.interpreter.bound) }
    {
        self.interpreter.begin(run)?;
        set_number(&mut run.uniforms, variable, numbers.next);
        Ok(())
    }

    // One statement, with all that it holds.
    #[cycle(search)]
    #[tactic(auto, using(crate::proofs::Walk::while_known, crate::proofs::Walk::then_known, crate::proofs::Walk::else_known, crate::proofs::ForWalk::for_known))]
    fn search_statement<V: Watch>(
        &self,
        run: &mut Run,
        watch: &mut V,
        s: &Statement,
    ) -> Result<(), Stop>
        requires within { run.old.count ≤ self.now.interpreter.bound }
        ensures known { IsKnown (of_statement self.now.interpreter.program.now s.now (state_of run.old)) (state_of run.new) result }
        ensures grows { OnOk result (run.old.count ≤ run.new.count) }
        ensures within { OnOk result (run.new.count ≤ self.now.interpreter.bound) }
    {
        match s {
            Statement::While {
                location,
                test,
                body,
            } => self.search_while(run, watch, body, *location, test),
            Statement::If {
                location,
                test,
                then_part,
                else_part,
            } => {
                let Ok(holds) = self.test(run, *location, &Action::Chooses { test }, test) else {
                    return Err(Stop::Unknown);
                };
                if holds {
                    self.search_block(run, watch, then_part)
                } else {
                    self.search_block(run, watch, else_part)
                }
            }
            Statement::For {
                location,
                variable,
                low,
                high,
                body,
            } => self.search_for(run, watch, body, *location, *variable, low, high),
            Statement::Assign { .. } | Statement::Print { .. } | Statement::Pardo { .. } =>
                self.run(run, s),
        }
    }

    // The statements of a block, in order.
    #[cycle(search)]
    #[tactic(auto, using(crate::proofs::Walk::block_starts, crate::proofs::Walk::block_stops, crate::proofs::Walk::block_goes, crate::proofs::Walk::block_ends))]
    fn search_block<V: Watch>(
        &self,
        run: &mut Run,
        watch: &mut V,
        body: &Vec<Statement>,
    ) -> Result<(), Stop>
        requires within { run.old.count ≤ self.now.interpreter.bound }
        ensures known { IsKnown (of_list self.now.interpreter.program.now body.now.items (state_of run.old)) (state_of run.new) result }
        ensures grows { OnOk result (run.old.count ≤ run.new.count) }
        ensures within { OnOk result (run.new.count ≤ self.now.interpreter.bound) }
    {
        for s in body {
            watch.ran(run.count);
            if let Err(stop) = self.search_statement(run, watch, s) {
                return Err(stop);
            }
        }
        Ok(())
    }

    // The turns of a loop. Its first state is kept and a later one now and then, and both are compared behind each turn.
    #[cycle(search)]
    #[tactic(auto, using(crate::proofs::LoopWalk::loop_starts, crate::proofs::LoopWalk::loop_stops, crate::proofs::LoopWalk::loop_goes, crate::proofs::LoopWalk::loop_ends, crate::proofs::LoopWalk::loop_cycles))]
    fn search_while<V: Watch>(
        &self,
        run: &mut Run,
        watch: &mut V,
        body: &Vec<Statement>,
        location: Location,
        test: &Expression,
    ) -> Result<(), Stop>
        requires within { run.old.count ≤ self.now.interpreter.bound }
        ensures known { IsKnown (of_loop self.now.interpreter.program.now location test.now body.now.items (state_of run.old))
            (state_of run.new) result }
        ensures grows { OnOk result (run.old.count ≤ run.new.count) }
        ensures within { OnOk result (run.new.count ≤ self.now.interpreter.bound) }
    {
        let mut first = Keeper::of_first(run);
        let mut later = Keeper::of_later(run);
        'turns: loop {
            let Ok(holds) = self.test(run, location, &Action::Turns { test }, test) else {
                return Err(Stop::Unknown);
            };
            if !holds {
                return Ok(());
            }
            if let Err(stop) = self.search_block(run, watch, body) {
                return Err(stop);
            }
            if let Some(cycle) = first.find(run, location.line) {
                return Err(Stop::Cycle(cycle));
            }
            if let Some(cycle) = later.find(run, location.line) {
                return Err(Stop::Cycle(cycle));
            }
            let Ok(()) = first.look(self.interpreter.alloc, run) else {
                return Err(Stop::Unknown);
            };
            let Ok(()) = later.look(self.interpreter.alloc, run) else {
                return Err(Stop::Unknown);
            };
        }
    }

    // The bounds of a `for`, and its turns.
    #[cycle(search)]
    #[tactic(auto, using(crate::proofs::ForWalk::bounds_known))]
    fn search_for<V: Watch>(
        &self,
        run: &mut Run,
        watch: &mut V,
        body: &Vec<Statement>,
        location: Location,
        variable: usize,
        low: &Expression,
        high: &Expression,
    ) -> Result<(), Stop>
        requires within { run.old.count ≤ self.now.interpreter.bound }
        ensures known { IsKnown (of_for self.now.interpreter.program.now location low.now high.now variable body.now.items
            (state_of run.old))
            (state_of run.new) result }
        ensures grows { OnOk result (run.old.count ≤ run.new.count) }
        ensures within { OnOk result (run.new.count ≤ self.now.interpreter.bound) }
    {
        let Ok(numbers) = self.bounds(run, location, low, high) else {
            return Err(Stop::Unknown);
        };
        self.search_turns(run, watch, body, variable, &numbers)
    }

    // The turns of a `for`, one for each number.
    #[cycle(search)]
    #[tactic(auto, using(crate::proofs::ForWalk::for_starts, crate::proofs::ForWalk::for_is_empty, crate::proofs::ForWalk::for_ends, crate::proofs::ForWalk::for_stops, crate::proofs::ForWalk::for_goes))]
    fn search_turns<V: Watch>(
        &self,
        run: &mut Run,
        watch: &mut V,
        body: &Vec<Statement>,
        variable: usize,
        numbers: &Numbers,
    ) -> Result<(), Stop>
        requires within { run.old.count ≤ self.now.interpreter.bound }
        ensures known { (here : Location) → IsKnown (of_turns self.now.interpreter.program.now here numbers.now.next
            numbers.now.last variable
            body.now.items (state_of run.old)) (state_of run.new) result }
        ensures grows { OnOk result (run.old.count ≤ run.new.count) }
        ensures within { OnOk result (run.new.count ≤ self.now.interpreter.bound) }
    {
        if numbers.is_empty() {
            return Ok(());
        }
        let mut left = *numbers;
        'turns: loop {
            let Ok(()) = self.set_next(run, variable, &left) else {
                return Err(Stop::Unknown);
            };
            if let Err(stop) = self.search_block(run, watch, body) {
                return Err(stop);
            }
            if left.is_at_end() {
                return Ok(());
            }
            left.advance();
        }
    }

    /// The whole body of the program.
    #[tactic(auto, using(crate::proofs::Walk::block_starts, crate::proofs::Walk::block_stops, crate::proofs::Walk::block_goes, crate::proofs::Walk::block_ends))]
    pub(crate) fn search_body<V: Watch>(&self, run: &mut Run, watch: &mut V) -> Result<(), Stop>
        requires within { run.old.count ≤ self.now.interpreter.bound }
        ensures known { IsKnown (of_list self.now.interpreter.program.now self.now.interpreter.program.now.body (state_of run.old))
            (state_of run.new) result }
    {
        for s in self.interpreter.program.body() {
            if let Err(stop) = self.search_statement(run, watch, s) {
                return Err(stop);
            }
        }
        Ok(())
    }
}
