//! Telling a run that is heard.

ghost use Rattle.journal.specs.HeardLaws.{Heard, Left, heard_nothing, heard_on};

use crate::faults::{fault_alone, fault_together};
use crate::journal::Journal;
use crate::ran::{ran_alone, ran_together};
use crate::teller::Teller;
use pram_check::Program;
use pram_meaning::Key;
use pram_meaning::action::{Action, StepAction};
use pram_meaning::attempt::Effect;
use pram_meaning::listener::Listener;
use pram_meaning::part::Part;
use pram_meaning::run::Run;
use pram_meaning::team::Member;
use pram_tokens::Location;
use pram_values::Kind;
use std::alloc::AllocError;

impl<'a, T: Teller> Listener for Journal<'a, T> {
    ghost hears = { λ a ms b. Heard T.tells a.program.now b.program.now a.teller b.teller ms };

    ghost gives_up = { λ a m b. Left T.tells T.breaks_off a.program.now a.teller m b.teller };

    fn acts(
        &mut self,
        run: &Run,
        location: Location,
        action: &Action,
        trail: &[Option<u32>],
        effect: &Effect,
    ) -> Result<(), AllocError> {
        if self.teller.passes() {
            return Ok(());
        }
        let entry = ran_alone(self.alloc, run, location, action, trail, effect)?;
        self.teller.tell(entry)
    }

    fn fails(
        &mut self,
        run: &Run,
        location: Location,
        action: &Action,
        trail: &[Option<u32>],
        kind: Kind,
    ) -> Result<(), AllocError> {
        if self.teller.passes() {
            return Ok(());
        }
        let (alloc, program) = (self.alloc, self.program);
        let fault = fault_alone(alloc, program, run, location, action, trail, kind)?;
        self.teller.tell(fault)
    }

    fn acts_on(
        &mut self,
        program: &Program,
        run: &Run,
        team: &Vec<Member>,
        location: Location,
        action: &StepAction,
        parts: &[Part],
    ) -> Result<(), AllocError> {
        if self.teller.passes() {
            return Ok(());
        }
        let (alloc, slate) = (self.alloc, &mut self.slate);
        let entry = ran_together(alloc, slate, program, run, team, location, action, parts)?;
        self.teller.tell(entry)
    }

    fn fails_on(
        &mut self,
        run: &Run,
        team: &Vec<Member>,
        location: Location,
        action: &StepAction,
        parts: &[Part],
        key: Key,
    ) -> Result<(), AllocError> {
        if self.teller.passes() {
            return Ok(());
        }
        let (alloc, program) = (self.alloc, self.program);
        let fault = fault_together(alloc, program, run, team, location, action, parts, key)?;
        self.teller.tell(fault)
    }

    fn closes(&mut self) -> Result<(), AllocError> {
        Ok(())
    }

    ghost hears_nothing = { λ l. heard_nothing T.tells T.tells_nothing l.program.now l.teller };

    ghost hears_on = { λ a b c ms ns. heard_on T.tells T.tells_on a.program.now b.program.now c.program.now a.teller b.teller c.teller
        ms ns };
}
