//! The expressions of one statement, whose shared reads are counted together.

ghost use Rattle.std.specs.Prelude.{◌++◌};
ghost use Rattle.pram_names.specs.Breaches.{uses, use_breaches};
ghost use Rattle.pram_names.specs.Resolved.{Says};
ghost use Rattle.pram_names.specs.Walk.{Judges};

use crate::body::Expression;
use crate::fault::CheckFault;
use crate::resolving::expression;
use crate::scope::Scope;
use pram_trees::Expr;
use std::alloc::Global;

/// The one expression of a statement.
pub fn value(alloc: Global, scope: &Scope, e: &Expr) -> Result<Expression, CheckFault>
    ensures { Judges (Says scope.now e.now) (use_breaches scope.now 0 (uses e.now)) result }
{
    let mut reads = 0;
    expression(alloc, scope, &mut reads, e)
}

/// The two expressions of a statement.
pub fn values(
    alloc: Global,
    scope: &Scope,
    e: &Expr,
    f: &Expr,
) -> Result<(Expression, Expression), CheckFault>
    ensures { Judges (λ p. Says scope.now e.now p.0 × Says scope.now f.now p.1)
        (use_breaches scope.now 0 (uses e.now ++ uses f.now)) result }
{
    let mut reads = 0;
    let first = expression(alloc, scope, &mut reads, e)?;
    let second = expression(alloc, scope, &mut reads, f)?;
    Ok((first, second))
}
