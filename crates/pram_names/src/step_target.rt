//! What is assigned inside pardo.

ghost use Rattle.std.specs.Prelude.{[], true};
ghost use Rattle.pram_names.specs.Scope as names;
ghost use Rattle.pram_names.specs.Breaches.{at, target_cause};
ghost use Rattle.pram_names.specs.Resolved.{SaysInner};
ghost use Rattle.pram_names.specs.Walk.{Judges};

use crate::body::StepTarget;
use crate::fault::{Cause, CheckFault};
use crate::resolving::breach;
use crate::scope::{Meaning, Scope};
use pram_trees::Name;

/// What is assigned without subscript.
pub fn inner_target(scope: &Scope, x: &Name) -> Result<StepTarget, CheckFault>
    ensures { Judges (SaysInner scope.now x.now)
        (at x.now.location (target_cause true [] (names.meaning_of scope.now x.now.text))) result }
{
    match scope.meaning_of(x.text.as_slice()) {
        None => Err(breach(x.location, Cause::UnknownName)),
        Some(Meaning::Array(_)) => Err(breach(x.location, Cause::WrongKind)),
        Some(Meaning::Uniform(_)) => Err(breach(x.location, Cause::WrongKind)),
        Some(Meaning::Index) => Err(breach(x.location, Cause::AssignedLoopVariable)),
        Some(Meaning::Cell(k)) => Ok(StepTarget::Cell(k)),
        Some(Meaning::Local(k)) => Ok(StepTarget::Local(k)),
    }
}
