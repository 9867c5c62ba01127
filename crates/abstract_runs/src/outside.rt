//! Statements outside pardo.

ghost use Rattle.std.specs.Prelude.{◌≡◌, ℕ, Bool, ◌≤◌, ◌<◌, ◌+◌, ◌⊎◌, true, false, IfOk, IfErr, IfSome, OnOk};
ghost use Rattle.pram_model.specs.Layout.{width};
ghost use Rattle.pram_meaning.specs.Bounded as spec;
ghost use Rattle.pram_meaning.specs.Bounded.{for_turns, perform, perform_list, tested, turns};
ghost use Rattle.pram_meaning.specs.Store.{State, seen};
ghost use Rattle.abstract_runs.specs.Following.{Follows};
ghost use Rattle.all_inputs.specs.declared.undecided.Undecided.TheVariants.{Restless};
ghost use Rattle.abstract_runs.specs.declared.halt.Halt.TheVariants.{OutOfMemory};
ghost use Rattle.abstract_runs.specs.Halting.{Halts, HasStatement, HaveStatement, IsOpenAt};
ghost use Rattle.abstract_runs.specs.Leads.{Leads};
ghost use Rattle.abstract_runs.specs.Open.{after_test};
ghost use Rattle.abstract_runs.specs.Standing.{StandsFor};
ghost use Rattle.abstract_runs.specs.Tests.{ComesTo, IsTested};
ghost use Rattle.all_inputs.specs.Told.{IsKept};

use crate::counters::store;
use crate::decided::{Decided, decide};
use crate::halt::Halt;
use crate::joining_ways::join_ways;
use crate::narrowing_tests::narrow;
use crate::resting::{MOST_ROUNDS, widen_at};
use crate::standing::Standing;
use crate::storing::set_variable;
use crate::survey::Survey;
use all_inputs::{Told, Undecided};
use pram_check::{Expression, Statement, Target};
use pram_meaning::numbers::Numbers;

impl<'a> Survey<'a> {
    /// An assignment; `false` where no run goes on.
    fn assign(
        &self,
        known: &mut Standing,
        told: &mut Told,
        line: u32,
        target: &Target,
        e: &Expression,
    ) -> Result<bool, Halt>
        ensures leads { IfOk result (λ on. (m : State) → StandsFor known.old m → Leads (λ u n. (on ≡ true) × StandsFor known.new n) told.new
            (spec.assign self.now.program.now self.now.bound line target.now e.now m)) }
        ensures halts { IfErr result (λ h. h ≡ OutOfMemory) }
        ensures follows { OnOk result (Follows known.old known.new) }
        ensures kept { IsKept told.old told.new }
    {
        match self.try_assign(known, told, line, target, e)? {
            Some(effect) => {
                store(known, target, e, effect);
                Ok(true)
            }
            None => Ok(false),
        }
    }

    /// A print; `false` where no run goes on.
    fn print(
        &self,
        known: &mut Standing,
        told: &mut Told,
        line: u32,
        e: &Expression,
    ) -> Result<bool, Halt>
        ensures leads { IfOk result (λ on. (m : State) → StandsFor known.old m → Leads (λ u n. (on ≡ true) × StandsFor known.new n) told.new
            (spec.print self.now.program.now self.now.bound line e.now m)) }
        ensures halts { IfErr result (λ h. h ≡ OutOfMemory) }
        ensures follows { OnOk result (Follows known.old known.new) }
        ensures kept { IsKept told.old told.new }
    {
        match self.evaluate(known, told, line, e)? {
            Some(_) => Ok(true),
            None => Ok(false),
        }
    }

    /// How a test comes out; `None` where no run goes on.
    fn test(
        &self,
        known: &mut Standing,
        told: &mut Told,
        line: u32,
        e: &Expression,
    ) -> Result<Option<Decided>, Halt>
        ensures leads { IfOk result (λ out. (m : State) → StandsFor known.old m →
            Leads (λ b n. IsTested out (seen self.now.program.now n) e.now b × StandsFor known.new n) told.new
            (tested self.now.program.now self.now.bound line e.now m)) }
        ensures bound { OnOk result (self.now.bound ≤ known.old.most → told.new.may_go_on ≡ true) }
        ensures more { IfOk result (λ out. IfSome out (λ d. (known.old.least < known.new.least) × (known.old.least < self.now.bound))) }
        ensures halts { IfErr result (λ h. h ≡ OutOfMemory) }
        ensures follows { OnOk result (Follows known.old known.new) }
        ensures kept { IsKept told.old told.new }
    {
        match self.evaluate(known, told, line, e)? {
            Some(value) => Ok(Some(decide(value))),
            None => Ok(None),
        }
    }

    /// What is left behind a loop whose test came out false; `false` where nothing is.
    fn leave(&self, known: &mut Standing, e: &Expression) -> Result<bool, Halt>
        ensures kept { IfOk result (λ on. (m : State) → StandsFor known.old m → ComesTo (seen self.now.program.now m) e.now false →
            (on ≡ true) × StandsFor known.new m) }
        ensures halts { IfErr result (λ h. h ≡ OutOfMemory) }
        ensures follows { OnOk result (Follows known.old known.new) }
    {
        let on = narrow(self.alloc, self.program, known, e, false)?;
        Ok(on)
    }

    /// The statements of a block, in order; `false` where no run goes on.
    #[cycle(outside)]
    fn run_block(
        &self,
        known: &mut Standing,
        told: &mut Told,
        body: &Vec<Statement>,
    ) -> Result<bool, Halt>
        ensures leads { IfOk result (λ on. (m : State) → StandsFor known.old m → Leads (λ u n. (on ≡ true) × StandsFor known.new n) told.new
            (perform_list self.now.program.now self.now.bound body.now.items m)) }
        ensures halts { IfErr result (Halts (λ u. HaveStatement (IsOpenAt u) body.now.items)) }
        ensures follows { OnOk result (Follows known.old known.new) }
        ensures kept { IsKept told.old told.new }
    {
        for s in body {
            let on = self.run_statement(known, told, s)?;
            if !on {
                return Ok(false);
            }
        }
        Ok(true)
    }

    /// A statement, with all that it holds; `false` where no run goes on.
    #[cycle(outside)]
    pub(crate) fn run_statement(
        &self,
        known: &mut Standing,
        told: &mut Told,
        s: &Statement,
    ) -> Result<bool, Halt>
        ensures leads { IfOk result (λ on. (m : State) → StandsFor known.old m → Leads (λ u n. (on ≡ true) × StandsFor known.new n) told.new
            (perform self.now.program.now self.now.bound s.now m)) }
        ensures halts { IfErr result (Halts (λ u. HasStatement (IsOpenAt u) s.now)) }
        ensures follows { OnOk result (Follows known.old known.new) }
        ensures kept { IsKept told.old told.new }
    {
        match s {
            Statement::Assign {
                location,
                target,
                value,
            } => {
                let on = self.assign(known, told, location.line, target, value)?;
                Ok(on)
            }
            Statement::Print { location, value } => {
                let on = self.print(known, told, location.line, value)?;
                Ok(on)
            }
            Statement::While {
                location,
                test,
                body,
            } => {
                let on = self.run_while(known, told, body, location.line, test)?;
                Ok(on)
            }
            Statement::If {
                location,
                test,
                then_part,
                else_part,
            } => match self.test(known, told, location.line, test)? {
                None => Ok(false),
                Some(Decided::Yes) => {
                    let on = self.run_block(known, told, then_part)?;
                    Ok(on)
                }
                Some(Decided::No) => {
                    let on = self.run_block(known, told, else_part)?;
                    Ok(on)
                }
                Some(Decided::Open) => {
                    let mut other = known.copied(self.alloc)?;
                    let on = self.run_branch(known, told, then_part, test, true)?;
                    let off = self.run_branch(&mut other, told, else_part, test, false)?;
                    Ok(join_ways(known, on, other, off))
                }
            },
            Statement::For {
                location,
                variable,
                low,
                high,
                body,
            } => match self.try_bounds(known, told, location.line, low, high)? {
                None => Ok(false),
                Some((first, last)) => {
                    let numbers = Numbers { next: first, last };
                    let on = self.run_for(known, told, body, *variable, &numbers)?;
                    Ok(on)
                }
            },
            Statement::Pardo {
                location,
                low,
                high,
                locals,
                body,
            } => {
                let on = self.run_pardo(known, told, body, location.line, low, high, *locals)?;
                Ok(on)
            }
        }
    }

    /// A branch that is run where a test came out true or false; `false` where no run goes on.
    #[cycle(outside)]
    fn run_branch(
        &self,
        known: &mut Standing,
        told: &mut Told,
        body: &Vec<Statement>,
        e: &Expression,
        way: bool,
    ) -> Result<bool, Halt>
        ensures leads { IfOk result (λ on. (m : State) → StandsFor known.old m → ComesTo (seen self.now.program.now m) e.now way →
            Leads (λ u n. (on ≡ true) × StandsFor known.new n) told.new
            (perform_list self.now.program.now self.now.bound body.now.items m)) }
        ensures halts { IfErr result (Halts (λ u. HaveStatement (IsOpenAt u) body.now.items)) }
        ensures follows { OnOk result (Follows known.old known.new) }
        ensures kept { IsKept told.old told.new }
    {
        if !narrow(self.alloc, self.program, known, e, way)? {
            return Ok(false);
        }
        let on = self.run_block(known, told, body)?;
        Ok(on)
    }

    #[cycle(outside)]
    fn run_while(
        &self,
        known: &mut Standing,
        told: &mut Told,
        body: &Vec<Statement>,
        line: u32,
        e: &Expression,
    ) -> Result<bool, Halt>
        ensures leads { IfOk result (λ on. (m : State) → StandsFor known.old m → Leads (λ u n. (on ≡ true) × StandsFor known.new n) told.new
            (turns (self.now.bound + 1) (tested self.now.program.now self.now.bound line e.now)
            (perform_list self.now.program.now self.now.bound body.now.items) m)) }
        ensures halts { IfErr result (Halts (λ u. (u ≡ Restless line) ⊎ HaveStatement (IsOpenAt u) body.now.items)) }
        ensures follows { OnOk result (Follows known.old known.new) }
        ensures kept { IsKept told.old told.new }
    {
        'turns: loop {
            match self.test(known, told, line, e)? {
                None => return Ok(false),
                Some(Decided::No) => return Ok(true),
                Some(Decided::Open) => {
                    let on = self.run_open(known, told, body, line, e)?;
                    return Ok(on);
                }
                Some(Decided::Yes) => {}
            }
            let on = self.run_block(known, told, body)?;
            if !on {
                return Ok(false);
            }
        }
    }

    /// The turns of a loop behind a test that came out both ways: what is known at its test is widened until no turn adds to it.
    #[cycle(outside)]
    fn run_open(
        &self,
        known: &mut Standing,
        told: &mut Told,
        body: &Vec<Statement>,
        line: u32,
        e: &Expression,
    ) -> Result<bool, Halt>
        ensures leads { IfOk result (λ on. (k : ℕ) (b : Bool) (m : State) → StandsFor known.old m →
            ComesTo (seen self.now.program.now m) e.now b → Leads (λ u n. (on ≡ true) × StandsFor known.new n) told.new
            (after_test self.now.program.now self.now.bound line e.now body.now.items k b m)) }
        ensures halts { IfErr result (Halts (λ u. (u ≡ Restless line) ⊎ HaveStatement (IsOpenAt u) body.now.items)) }
        ensures follows { OnOk result (Follows known.old known.new) }
        ensures kept { IsKept told.old told.new }
    {
        known.most = known.most.max(self.bound);
        for round in 0..MOST_ROUNDS {
            let mut inside = known.copied(self.alloc)?;
            let on = self.run_branch(&mut inside, told, body, e, true)?;
            if !on {
                let left = self.leave(known, e)?;
                return Ok(left);
            }
            let Some(_) = self.test(&mut inside, told, line, e)? else {
                let left = self.leave(known, e)?;
                return Ok(left);
            };
            if inside.is_within(known) {
                let left = self.leave(known, e)?;
                return Ok(left);
            }
            widen_at(known, &inside, self.marks, self.bound, round);
        }
        Err(Halt::Undecided(Undecided::Restless { line }))
    }

    /// The turns of a `for`, one for each number; `false` where no run goes on.
    #[cycle(outside)]
    fn run_for(
        &self,
        known: &mut Standing,
        told: &mut Told,
        body: &Vec<Statement>,
        variable: usize,
        numbers: &Numbers,
    ) -> Result<bool, Halt>
        ensures leads { IfOk result (λ on. (m : State) → StandsFor known.old m → Leads (λ u n. (on ≡ true) × StandsFor known.new n) told.new
            (for_turns self.now.bound (width numbers.now.next numbers.now.last) variable numbers.now.next
            (perform_list self.now.program.now self.now.bound body.now.items) m)) }
        ensures halts { IfErr result (Halts (λ u. HaveStatement (IsOpenAt u) body.now.items)) }
        ensures follows { OnOk result (Follows known.old known.new) }
        ensures kept { IsKept told.old told.new }
    {
        if numbers.is_empty() {
            return Ok(true);
        }
        let mut left = *numbers;
        'turns: loop {
            if !self.begin(known, told) {
                return Ok(false);
            }
            set_variable(known, variable, &left);
            let on = self.run_block(known, told, body)?;
            if !on {
                return Ok(false);
            }
            if left.is_at_end() {
                return Ok(true);
            }
            left.advance();
        }
    }
}
