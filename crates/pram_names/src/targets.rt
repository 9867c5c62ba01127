//! What is assigned outside pardo, and at a subscript; the variable of a `for`.

ghost use Rattle.std.specs.Prelude.{◌≡◌, false, Some, nat_eq};
ghost use Rattle.std.specs.List.{list_any};
ghost use Rattle.pram_names.specs.Scope as names;
ghost use Rattle.pram_names.specs.Breaches.{at, target_cause, element_cause, variable_cause};
ghost use Rattle.pram_names.specs.Resolved.{SaysTarget};
ghost use Rattle.pram_names.specs.Walk.{Judges};

use crate::body::Target;
use crate::fault::{Cause, CheckFault};
use crate::resolving::breach;
use crate::scope::{Meaning, Scope};
use pram_trees::Name;

/// Whether a uniform variable is the variable of one of the loops.
pub fn is_loop(loops: &[usize], k: usize) -> bool
    ensures { result ≡ list_any (nat_eq k) loops.now }
{
    for variable in loops {
        if k == *variable {
            return true;
        }
    }
    false
}

/// What is assigned without subscript.
pub fn target(scope: &Scope, loops: &[usize], x: &Name) -> Result<Target, CheckFault>
    ensures { Judges (SaysTarget scope.now x.now)
        (at x.now.location (target_cause false loops.now (names.meaning_of scope.now x.now.text))) result }
{
    match scope.meaning_of(x.text.as_slice()) {
        None => Err(breach(x.location, Cause::UnknownName)),
        Some(Meaning::Array(_)) => Err(breach(x.location, Cause::WrongKind)),
        Some(Meaning::Index) => Err(breach(x.location, Cause::AssignedLoopVariable)),
        Some(Meaning::Local(_)) => Err(breach(x.location, Cause::WrongKind)),
        Some(Meaning::Cell(k)) => Ok(Target::Cell(k)),
        Some(Meaning::Uniform(k)) => {
            if is_loop(loops, k) {
                return Err(breach(x.location, Cause::AssignedLoopVariable));
            }
            Ok(Target::Uniform(k))
        }
    }
}

/// The variable of a `for`.
pub fn variable(scope: &Scope, loops: &[usize], x: &Name) -> Result<usize, CheckFault>
    ensures { Judges (λ k. names.meaning_of scope.now x.now.text ≡ Some (Meaning.Uniform k))
        (at x.now.location (variable_cause loops.now (names.meaning_of scope.now x.now.text))) result }
{
    match scope.meaning_of(x.text.as_slice()) {
        None => Err(breach(x.location, Cause::UnknownName)),
        Some(Meaning::Array(_)) => Err(breach(x.location, Cause::WrongKind)),
        Some(Meaning::Index) => Err(breach(x.location, Cause::WrongKind)),
        Some(Meaning::Local(_)) => Err(breach(x.location, Cause::WrongKind)),
        Some(Meaning::Cell(_)) => Err(breach(x.location, Cause::WrongKind)),
        Some(Meaning::Uniform(k)) => {
            if is_loop(loops, k) {
                return Err(breach(x.location, Cause::AssignedLoopVariable));
            }
            Ok(k)
        }
    }
}

/// The array that is assigned at a subscript.
pub fn element_target(scope: &Scope, x: &Name) -> Result<usize, CheckFault>
    ensures { Judges (λ k. names.meaning_of scope.now x.now.text ≡ Some (Meaning.Array k))
        (at x.now.location (element_cause (names.meaning_of scope.now x.now.text))) result }
{
    match scope.meaning_of(x.text.as_slice()) {
        None => Err(breach(x.location, Cause::UnknownName)),
        Some(Meaning::Array(k)) => Ok(k),
        Some(Meaning::Cell(_)) => Err(breach(x.location, Cause::WrongKind)),
        Some(Meaning::Uniform(_)) => Err(breach(x.location, Cause::WrongKind)),
        Some(Meaning::Local(_)) => Err(breach(x.location, Cause::WrongKind)),
        Some(Meaning::Index) => Err(breach(x.location, Cause::WrongKind)),
    }
}
