//! Who looks at a run while it goes.

ghost use Rattle.std.specs.Prelude.{⊤};

use observing::Watch;
use pram_check::Program;
use pram_meaning::Key;
use pram_meaning::action::{Action, StepAction};
use pram_meaning::attempt::Effect;
use pram_meaning::listener::Listener;
use pram_meaning::part::Part;
use pram_meaning::run::Run;
use pram_meaning::team::Member;
use pram_tokens::Location;
use pram_values::Kind;
use std::alloc::AllocError;

// A clock is looked at behind so many statements.
const STRIDE: u32 = 16;

/// Keeps nothing of a run, but tells a watch how far it is, and gives up when time is over.
#[derive(Drop)]
pub(crate) struct Looker<'w, V: Watch> {
    pub(crate) watch: &'w mut V,
    /// How many milliseconds the call may have been going.
    pub(crate) until: u64,
    /// How many have begun.
    pub(crate) statements: u32,
    pub(crate) is_over: bool,
}

impl<'w, V: Watch> Looker<'w, V> {
    fn look(&mut self, statements: u32) -> Result<(), AllocError> {
        self.statements = statements;
        if statements % STRIDE != 0 {
            return Ok(());
        }
        self.watch.ran(statements);
        if self.watch.elapsed() < self.until {
            return Ok(());
        }
        self.is_over = true;
        Err(AllocError)
    }
}

impl<'w, V: Watch> Listener for Looker<'w, V> {
    ghost hears = { λ a ms b. ⊤ };

    ghost gives_up = { λ a m b. ⊤ };

    fn acts(
        &mut self,
        run: &Run,
        _location: Location,
        _action: &Action,
        _trail: &[Option<u32>],
        _effect: &Effect,
    ) -> Result<(), AllocError> {
        self.look(run.count)
    }

    fn fails(
        &mut self,
        _run: &Run,
        _location: Location,
        _action: &Action,
        _trail: &[Option<u32>],
        _kind: Kind,
    ) -> Result<(), AllocError> {
        Ok(())
    }

    fn acts_on(
        &mut self,
        _program: &Program,
        run: &Run,
        _team: &Vec<Member>,
        _location: Location,
        _action: &StepAction,
        _parts: &[Part],
    ) -> Result<(), AllocError> {
        self.look(run.count)
    }

    fn fails_on(
        &mut self,
        _run: &Run,
        _team: &Vec<Member>,
        _location: Location,
        _action: &StepAction,
        _parts: &[Part],
        _key: Key,
    ) -> Result<(), AllocError> {
        Ok(())
    }

    fn closes(&mut self) -> Result<(), AllocError> {
        Ok(())
    }

    ghost hears_nothing = { λ l. tt };

    ghost hears_on = { λ a b c ms ns h k. tt };
}
