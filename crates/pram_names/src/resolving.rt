//! Expressions: their names resolved.

ghost use Rattle.std.specs.Prelude.{◌≡◌, ◌+◌, ◌≤◌, ◌∷◌, ◌++◌, [], true, Some, None};
ghost use Rattle.pram_names.specs.Scope as names;
ghost use Rattle.pram_names.specs.Breaches.{uses, step_uses, use_breaches, use_cause, is_read, ninth, or_else, plain};
ghost use Rattle.pram_names.specs.Breaches.{subscripted, at, most_reads};
ghost use Rattle.pram_names.specs.Resolved.{Says, SayLinks};
ghost use Rattle.pram_names.specs.Walk.{Judges, JudgesUses};

use crate::body::{Expression, Link};
use crate::fault::{Breach, Cause, CheckFault, Limit, Spot};
use crate::scope::{Meaning, Scope};
use pram_trees::{Binary, Expr, Location, Name, Numeral};
use std::alloc::Global;

const MOST_READS: u32 = 8;

/// Something wrong with a token.
pub fn breach(location: Location, cause: Cause) -> CheckFault
    ensures { result ≡ CheckFault.Refused (record { spot = Spot.Offset location.offset; cause = cause }) }
{
    CheckFault::Refused(Breach {
        spot: Spot::Offset(location.offset),
        cause,
    })
}

// Counts a shared read, unless there are eight before it.
fn count_read(reads: &mut u32, location: Location) -> Result<(), CheckFault>
    requires { reads.old ≤ most_reads }
    ensures most { reads.new ≤ most_reads }
    ensures count { Judges (λ _. reads.new ≡ reads.old + 1) (at location (ninth reads.old true)) result }
{
    if *reads == MOST_READS {
        return Err(breach(location, Cause::Limit(Limit::Reads)));
    }
    *reads += 1;
    Ok(())
}

fn number(n: Numeral) -> Expression
    ensures { result ≡ Expression.Number n.value }
{
    Expression::Number(n.value)
}

// A name without subscript.
fn name(scope: &Scope, reads: &mut u32, x: &Name) -> Result<Expression, CheckFault>
    requires { reads.old ≤ most_reads }
    ensures most { reads.new ≤ most_reads }
    ensures is { JudgesUses (Says scope.now (Expr.Name x.now)) scope.now reads.old (plain x.now ∷ []) result reads.new }
{
    match scope.meaning_of(x.text.as_slice()) {
        None => Err(breach(x.location, Cause::UnknownName)),
        Some(Meaning::Uniform(k)) => Ok(Expression::Uniform(k)),
        Some(Meaning::Index) => Ok(Expression::Index),
        Some(Meaning::Local(k)) => Ok(Expression::Local(k)),
        Some(Meaning::Array(_)) => Err(breach(x.location, Cause::WrongKind)),
        Some(Meaning::Cell(k)) => {
            count_read(reads, x.location)?;
            Ok(Expression::Cell(k))
        }
    }
}

// The number of an array that is read at a subscript.
fn array(scope: &Scope, reads: &mut u32, x: &Name) -> Result<usize, CheckFault>
    requires { reads.old ≤ most_reads }
    ensures most { reads.new ≤ most_reads }
    ensures is { JudgesUses (λ k. names.meaning_of scope.now x.now.text ≡ Some (Meaning.Array k)) scope.now reads.old
        (subscripted x.now ∷ []) result reads.new }
{
    match scope.meaning_of(x.text.as_slice()) {
        None => Err(breach(x.location, Cause::UnknownName)),
        Some(Meaning::Uniform(_)) => Err(breach(x.location, Cause::WrongKind)),
        Some(Meaning::Index) => Err(breach(x.location, Cause::WrongKind)),
        Some(Meaning::Local(_)) => Err(breach(x.location, Cause::WrongKind)),
        Some(Meaning::Cell(_)) => Err(breach(x.location, Cause::WrongKind)),
        Some(Meaning::Array(k)) => {
            count_read(reads, x.location)?;
            Ok(k)
        }
    }
}

/// What an expression says, if its names may stand where they do; `reads` counts the shared reads
/// of its statement.
#[cycle(expression)]
pub fn expression(
    alloc: Global,
    scope: &Scope,
    reads: &mut u32,
    e: &Expr,
) -> Result<Expression, CheckFault>
    requires { reads.old ≤ most_reads }
    ensures most { reads.new ≤ most_reads }
    ensures is { JudgesUses (Says scope.now e.now) scope.now reads.old (uses e.now) result reads.new }
{
    match e {
        Expr::Number(n) => Ok(number(*n)),
        Expr::Name(x) => name(scope, reads, x),
        Expr::Element(x, subscript) => {
            let array = array(scope, reads, x)?;
            let inner = expression(alloc, scope, reads, subscript.get())?;
            Ok(Expression::Element(array, Box::new(alloc, inner)?))
        }
        Expr::Paren(inner) => expression(alloc, scope, reads, inner.get()),
        Expr::Prefix(prefix, operand) => {
            let inner = expression(alloc, scope, reads, operand.get())?;
            Ok(Expression::Prefix(*prefix, Box::new(alloc, inner)?))
        }
        Expr::Chain(first, rest) => {
            let inner = expression(alloc, scope, reads, first.get())?;
            let links = links(alloc, scope, reads, rest.as_slice())?;
            Ok(Expression::Chain(Box::new(alloc, inner)?, links))
        }
    }
}

// Operators with their operands.
#[cycle(expression)]
fn links(
    alloc: Global,
    scope: &Scope,
    reads: &mut u32,
    rest: &[(Binary, Expr)],
) -> Result<Vec<Link>, CheckFault>
    requires { reads.old ≤ most_reads }
    ensures most { reads.new ≤ most_reads }
    ensures is { JudgesUses (λ v. SayLinks scope.now rest.now v.items) scope.now reads.old
        (step_uses rest.now) result reads.new }
{
    let mut links = Vec::new(alloc);
    for (operator, operand) in rest {
        let operand = expression(alloc, scope, reads, operand)?;
        links.push(Link {
            operator: *operator,
            operand,
        })?;
    }
    Ok(links)
}
