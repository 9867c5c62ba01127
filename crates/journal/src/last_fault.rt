//! Who listens to a run for the fault with which it ends.

ghost use Rattle.std.specs.Prelude.{⊤, refl};
ghost use Rattle.std.specs.Option.{option_map};
ghost use Rattle.journal.specs.Entries.{entry_is};
ghost use Rattle.journal.specs.HeardFaults.{FaultHeard, last_on};

use crate::Entry;
use crate::faults::{fault_alone, fault_together};
use pram_check::Program;
use pram_meaning::Key;
use pram_meaning::action::{Action, StepAction};
use pram_meaning::attempt::Effect;
use pram_meaning::listener::Listener;
use pram_meaning::part::Part;
use pram_meaning::run::Run;
use pram_meaning::team::Member;
use pram_tokens::Location;
use pram_values::Kind;
use std::alloc::{AllocError, Global};

/// The entry of the last statement of a program's run so far where it faults, and none otherwise: nothing is kept of what runs.
#[derive(Drop)]
pub struct LastFault<'a> {
    pub alloc: Global,
    pub program: &'a Program,
    pub entry: Option<Entry>,
}

impl<'a> Listener for LastFault<'a> {
    ghost hears = { λ a ms b.
        FaultHeard a.program.now b.program.now (option_map entry_is a.entry) (option_map entry_is b.entry) ms };

    ghost gives_up = { λ a m b. ⊤ };

    fn acts(
        &mut self,
        _run: &Run,
        _location: Location,
        _action: &Action,
        _trail: &[Option<u32>],
        _effect: &Effect,
    ) -> Result<(), AllocError> {
        self.entry = None;
        Ok(())
    }

    fn fails(
        &mut self,
        run: &Run,
        location: Location,
        action: &Action,
        trail: &[Option<u32>],
        kind: Kind,
    ) -> Result<(), AllocError> {
        let (alloc, program) = (self.alloc, self.program);
        let fault = fault_alone(alloc, program, run, location, action, trail, kind)?;
        self.entry = Some(fault);
        Ok(())
    }

    fn acts_on(
        &mut self,
        _program: &Program,
        _run: &Run,
        _team: &Vec<Member>,
        _location: Location,
        _action: &StepAction,
        _parts: &[Part],
    ) -> Result<(), AllocError> {
        self.entry = None;
        Ok(())
    }

    fn fails_on(
        &mut self,
        run: &Run,
        team: &Vec<Member>,
        location: Location,
        action: &StepAction,
        parts: &[Part],
        key: Key,
    ) -> Result<(), AllocError> {
        let (alloc, program) = (self.alloc, self.program);
        let fault = fault_together(alloc, program, run, team, location, action, parts, key)?;
        self.entry = Some(fault);
        Ok(())
    }

    fn closes(&mut self) -> Result<(), AllocError> {
        Ok(())
    }

    ghost hears_nothing = { λ l. (refl, refl) };

    ghost hears_on = { λ a b c ms ns. last_on a.program.now b.program.now c.program.now (option_map entry_is a.entry)
        (option_map entry_is b.entry) (option_map entry_is c.entry) ms ns };
}
