//! A listener that keeps nothing.

ghost use Rattle.std.specs.Prelude.{⊤};

use crate::action::{Action, StepAction};
use crate::attempt::Effect;
use crate::key::Key;
use crate::listener::Listener;
use crate::part::Part;
use crate::run::Run;
use crate::team::Member;
use pram_check::Program;
use pram_tokens::Location;
use pram_values::Kind;
use std::alloc::AllocError;

/// Keeps nothing.
#[derive(Clone, Copy, Drop)]
pub struct Silent {}

impl Listener for Silent {
    ghost hears = { λ a ms b. ⊤ };

    ghost gives_up = { λ a m b. ⊤ };

    fn acts(
        &mut self,
        _run: &Run,
        _location: Location,
        _action: &Action,
        _trail: &[Option<u32>],
        _effect: &Effect,
    ) -> Result<(), AllocError> {
        Ok(())
    }

    fn fails(
        &mut self,
        _run: &Run,
        _location: Location,
        _action: &Action,
        _trail: &[Option<u32>],
        _kind: Kind,
    ) -> Result<(), AllocError> {
        Ok(())
    }

    fn acts_on(
        &mut self,
        _program: &Program,
        _run: &Run,
        _team: &Vec<Member>,
        _location: Location,
        _action: &StepAction,
        _parts: &[Part],
    ) -> Result<(), AllocError> {
        Ok(())
    }

    fn fails_on(
        &mut self,
        _run: &Run,
        _team: &Vec<Member>,
        _location: Location,
        _action: &StepAction,
        _parts: &[Part],
        _key: Key,
    ) -> Result<(), AllocError> {
        Ok(())
    }

    fn closes(&mut self) -> Result<(), AllocError> {
        Ok(())
    }

    ghost hears_nothing = { λ l. tt };

    ghost hears_on = { λ a b c ms ns h k. tt };
}
