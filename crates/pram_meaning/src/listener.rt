//! Who listens to a run.

ghost use Rattle.std.specs.Prelude.{◌∷◌, [], List, ◌++◌, OnOk, OnErr};
ghost use Rattle.pram_meaning.specs.Listening.{acted, acted_on, failed, failed_on};
ghost use Rattle.pram_meaning.specs.Moments.{Moment, Closed};

use crate::action::{Action, StepAction};
use crate::attempt::Effect;
use crate::key::Key;
use crate::part::Part;
use crate::run::Run;
use crate::team::Member;
use pram_check::Program;
use pram_tokens::Location;
use pram_values::Kind;
use std::alloc::AllocError;

/// Who is told each moment of a run, as it passes. A moment is a term of the definitions: it is lent in parts, with the run as it stands
/// before the statement changes it, so that who keeps nothing makes nothing. The only error is that memory was refused:
/// who answers it gives up, and is told no more.
pub trait Listener {
    /// How a listener is changed by moments that it hears in a row.
    ghost hears: { Self → List Moment → Self → Type 0 };

    /// How a listener may be left that gives up at a moment, of which it may have heard part.
    ghost gives_up: { Self → Moment → Self → Type 0 };

    /// The one processor outside pardo executes a statement, which counts already: the cells that it has read by position, and what it
    /// gives.
    fn acts(
        &mut self,
        run: &Run,
        location: Location,
        action: &Action,
        trail: &[Option<u32>],
        effect: &Effect,
    ) -> Result<(), AllocError>
        ensures heard { OnOk result (hears self.old (acted run.now location action.now trail.now effect.now ∷ []) self.new) }
        ensures refused { OnErr result (gives_up self.old (acted run.now location action.now trail.now effect.now) self.new) };

    /// Its statement faults, at the last position of the trail.
    fn fails(
        &mut self,
        run: &Run,
        location: Location,
        action: &Action,
        trail: &[Option<u32>],
        kind: Kind,
    ) -> Result<(), AllocError>
        ensures heard { OnOk result (hears self.old (failed run.now location action.now trail.now kind ∷ []) self.new) }
        ensures refused { OnErr result (gives_up self.old (failed run.now location action.now trail.now kind) self.new) };

    /// A set of processors executes a statement, which counts already: the parts of all of them.
    fn acts_on(
        &mut self,
        program: &Program,
        run: &Run,
        team: &Vec<Member>,
        location: Location,
        action: &StepAction,
        parts: &[Part],
    ) -> Result<(), AllocError>
        ensures heard { OnOk result (hears self.old
            (acted_on program.now run.now team.now.items location action.now parts.now ∷ []) self.new) }
        ensures refused { OnErr result (gives_up self.old
            (acted_on program.now run.now team.now.items location action.now parts.now) self.new) };

    /// Its statement has this least fault.
    fn fails_on(
        &mut self,
        run: &Run,
        team: &Vec<Member>,
        location: Location,
        action: &StepAction,
        parts: &[Part],
        key: Key,
    ) -> Result<(), AllocError>
        ensures heard { OnOk result (hears self.old
            (failed_on run.now team.now.items location action.now parts.now key ∷ []) self.new) }
        ensures refused { OnErr result (gives_up self.old
            (failed_on run.now team.now.items location action.now parts.now key) self.new) };

    /// A branch of an `if` outside pardo closes, or a turn of a `for`, however it came out.
    fn closes(&mut self) -> Result<(), AllocError>
        ensures heard { OnOk result (hears self.old (Closed ∷ []) self.new) }
        ensures refused { OnErr result (gives_up self.old Closed self.new) };

    ghost hears_nothing: { (l : Self) → hears l [] l };

    ghost hears_on: { (a b c : Self) (ms ns : List Moment) → hears a ms b → hears b ns c → hears a (ms ++ ns) c };
}
