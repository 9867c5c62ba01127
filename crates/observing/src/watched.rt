//! Who listens to a run that is looked at.

ghost use Rattle.std.specs.Prelude.{◌≡◌};

use crate::Watch;
use pram_check::Program;
use pram_meaning::Key;
use pram_meaning::action::{Action, StepAction};
use pram_meaning::attempt::Effect;
use pram_meaning::listener::Listener;
use pram_meaning::part::Part;
use pram_meaning::run::Run;
use pram_meaning::team::Member;
use pram_tokens::Location;
use pram_values::Kind;
use std::alloc::AllocError;

// A clock is looked at behind so many statements.
const STRIDE: u32 = 16;

/// A listener to a run, and a watch that is told how many statements have begun. It has heard what the listener has.
#[derive(Drop)]
pub(crate) struct Watched<'w, L: Listener, V: Watch> {
    pub(crate) listener: L,
    pub(crate) watch: &'w mut V,
}

impl<'w, L: Listener, V: Watch> Watched<'w, L, V> {
    fn look(&mut self, statements: u32)
        ensures same { self.new.listener ≡ self.old.listener }
    {
        if statements % STRIDE == 0 {
            self.watch.ran(statements);
        }
    }
}

impl<'w, L: Listener, V: Watch> Listener for Watched<'w, L, V> {
    ghost hears = { λ a ms b. L.hears a.listener ms b.listener };

    ghost gives_up = { λ a m b. L.gives_up a.listener m b.listener };

    fn acts(
        &mut self,
        run: &Run,
        location: Location,
        action: &Action,
        trail: &[Option<u32>],
        effect: &Effect,
    ) -> Result<(), AllocError> {
        self.look(run.count);
        self.listener.acts(run, location, action, trail, effect)
    }

    fn fails(
        &mut self,
        run: &Run,
        location: Location,
        action: &Action,
        trail: &[Option<u32>],
        kind: Kind,
    ) -> Result<(), AllocError> {
        self.listener.fails(run, location, action, trail, kind)
    }

    fn acts_on(
        &mut self,
        program: &Program,
        run: &Run,
        team: &Vec<Member>,
        location: Location,
        action: &StepAction,
        parts: &[Part],
    ) -> Result<(), AllocError> {
        self.look(run.count);
        self.listener
            .acts_on(program, run, team, location, action, parts)
    }

    fn fails_on(
        &mut self,
        run: &Run,
        team: &Vec<Member>,
        location: Location,
        action: &StepAction,
        parts: &[Part],
        key: Key,
    ) -> Result<(), AllocError> {
        self.listener
            .fails_on(run, team, location, action, parts, key)
    }

    fn closes(&mut self) -> Result<(), AllocError> {
        self.listener.closes()
    }

    ghost hears_nothing = { λ l. L.hears_nothing l.listener };

    ghost hears_on = { λ a b c ms ns h k. L.hears_on a.listener b.listener c.listener ms ns h k };
}
