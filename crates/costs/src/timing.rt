//! The time and the work of a run that is heard.

ghost use Rattle.std.specs.Prelude.{⊤};
ghost use Rattle.costs.specs.Timed.{HasTimed, times_nothing, times_on};

use crate::taken::TimeAndWork;
use pram_check::Program;
use pram_meaning::Key;
use pram_meaning::action::{Action, StepAction};
use pram_meaning::attempt::Effect;
use pram_meaning::listener::Listener;
use pram_meaning::part::Part;
use pram_meaning::run::Run;
use pram_meaning::team::Member;
use pram_tokens::Location;
use pram_values::Kind;
use std::alloc::AllocError;

/// What can't be counted is answered as if memory was refused: no run within a bound comes so far.
impl Listener for TimeAndWork {
    ghost hears = { HasTimed };

    ghost gives_up = { λ a m b. ⊤ };

    fn acts(
        &mut self,
        _run: &Run,
        _location: Location,
        _action: &Action,
        _trail: &[Option<u32>],
        _effect: &Effect,
    ) -> Result<(), AllocError> {
        self.add(1)
    }

    fn fails(
        &mut self,
        _run: &Run,
        _location: Location,
        _action: &Action,
        _trail: &[Option<u32>],
        _kind: Kind,
    ) -> Result<(), AllocError> {
        self.add(1)
    }

    fn acts_on(
        &mut self,
        _program: &Program,
        _run: &Run,
        _team: &Vec<Member>,
        _location: Location,
        _action: &StepAction,
        parts: &[Part],
    ) -> Result<(), AllocError> {
        let Ok(processors) = u32::try_from(parts.len()) else {
            return Err(AllocError);
        };
        self.add(processors)
    }

    fn fails_on(
        &mut self,
        _run: &Run,
        _team: &Vec<Member>,
        _location: Location,
        _action: &StepAction,
        parts: &[Part],
        _key: Key,
    ) -> Result<(), AllocError> {
        let Ok(processors) = u32::try_from(parts.len()) else {
            return Err(AllocError);
        };
        self.add(processors)
    }

    fn closes(&mut self) -> Result<(), AllocError> {
        Ok(())
    }

    ghost hears_nothing = { times_nothing };

    ghost hears_on = { times_on };
}
