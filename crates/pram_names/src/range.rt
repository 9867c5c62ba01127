//! The head of a pardo: its bounds, its index and its locals.

ghost use Rattle.std.specs.Prelude.{◌≡◌, ◌++◌, [], ◌∷◌, OnOk};
ghost use Rattle.pram_names.specs.Scope as names;
ghost use Rattle.pram_names.specs.Breaches.{uses, use_breaches, at, read_count, new_cause, local_breaches};
ghost use Rattle.pram_names.specs.Resolved.{Says};
ghost use Rattle.pram_names.specs.Walk.{Judges};

use crate::body::Expression;
use crate::fault::{Cause, CheckFault};
use crate::resolving::{breach, expression};
use crate::scope::{Meaning, Scope};
use pram_trees::{Expr, Name};
use std::alloc::Global;

/// A new name differs from all names in scope.
pub fn new_name(scope: &Scope, x: &Name) -> Result<(), CheckFault>
    ensures { Judges (λ _. Unit {0}) (at x.now.location (new_cause scope.now x.now.text)) result }
{
    match scope.meaning_of(x.text.as_slice()) {
        None => Ok(()),
        Some(_) => Err(breach(x.location, Cause::DoubleName)),
    }
}

/// Takes the locals of a pardo in.
pub fn declare_locals<'a>(scope: &mut Scope<'a>, locals: &'a [Name]) -> Result<(), CheckFault>
    ensures { Judges (λ _. scope.new ≡ scope.old ++ names.locals_from 0 locals.now)
        (local_breaches scope.old 0 locals.now) result }
{
    let mut count = 0;
    for x in locals {
        new_name(scope, x)?;
        scope.declare(x.text.as_slice(), Meaning::Local(count))?;
        count += 1;
    }
    Ok(())
}

/// The bounds of a pardo with its index between them, which is in scope behind them.
pub fn pardo_range<'a>(
    alloc: Global,
    scope: &mut Scope<'a>,
    low: &Expr,
    index: &'a Name,
    high: &Expr,
) -> Result<(Expression, Expression), CheckFault>
    ensures is { Judges (λ p. Says scope.old low.now p.0 × Says scope.old high.now p.1)
        (use_breaches scope.old 0 (uses low.now)
        ++ (at index.now.location (new_cause scope.old index.now.text)
        ++ use_breaches scope.old (read_count scope.old (uses low.now)) (uses high.now))) result }
    ensures scope { OnOk result (scope.new ≡ names.inner_scope scope.old index.now []) }
{
    let mut reads = 0;
    let first = expression(alloc, scope, &mut reads, low)?;
    new_name(scope, index)?;
    let second = expression(alloc, scope, &mut reads, high)?;
    scope.declare(index.text.as_slice(), Meaning::Index)?;
    Ok((first, second))
}
