//! Statements outside pardo: their names resolved.

ghost use Rattle.std.specs.Prelude.{◌≡◌, ◌++◌, [], ◌∷◌, false, OnOk};
ghost use Rattle.pram_names.specs.Scope as names;
ghost use Rattle.pram_names.specs.Breaches.{uses, statement_breaches, block_breaches, outside_of};
ghost use Rattle.pram_names.specs.Resolved.{Says, SaysStatement, SayStatements};
ghost use Rattle.pram_names.specs.Walk.{Judges};

use crate::step::steps;
use pram_names::{
    Cause, CheckFault, Expression, Meaning, Scope, Statement, Target, breach, declare_locals,
    element_target, new_name, pardo_range, target, value, values, variable,
};
use pram_trees::{Expr, Location, Name, Stmt};
use std::alloc::Global;

// An assignment without subscript.
fn assign(
    alloc: Global,
    scope: &Scope,
    loops: &[usize],
    x: &Name,
    e: &Expr,
) -> Result<Statement, CheckFault>
    ensures { Judges (SaysStatement scope.now (Stmt.Assign x.now e.now))
        (statement_breaches (Stmt.Assign x.now e.now) (outside_of scope.now loops.now)) result }
{
    let cell = target(scope, loops, x)?;
    let value = value(alloc, scope, e)?;
    Ok(Statement::Assign {
        location: x.location,
        target: cell,
        value,
    })
}

// An assignment to an array at a subscript.
fn assign_element(
    alloc: Global,
    scope: &Scope,
    loops: &[usize],
    x: &Name,
    subscript: &Expr,
    e: &Expr,
) -> Result<Statement, CheckFault>
    ensures { Judges (SaysStatement scope.now (Stmt.AssignElement x.now subscript.now e.now))
        (statement_breaches (Stmt.AssignElement x.now subscript.now e.now) (outside_of scope.now loops.now)) result }
{
    let array = element_target(scope, x)?;
    let (subscript, value) = values(alloc, scope, subscript, e)?;
    Ok(Statement::Assign {
        location: x.location,
        target: Target::Element(array, subscript),
        value,
    })
}

// A pardo.
fn pardo<'a>(
    alloc: Global,
    scope: &mut Scope<'a>,
    loops: &[usize],
    location: Location,
    low: &Expr,
    index: &'a Name,
    high: &Expr,
    locals: &'a [Name],
    body: &[Stmt],
) -> Result<Statement, CheckFault>
    ensures is { let statement = Stmt.Pardo location low.now index.now high.now locals.now body.now in
        Judges (SaysStatement scope.old statement)
        (statement_breaches statement (outside_of scope.old loops.now)) result }
    ensures scope { OnOk result (scope.new ≡ scope.old) }
{
    let names = scope.len();
    let (first, last) = pardo_range(alloc, scope, low, index, high)?;
    declare_locals(scope, locals)?;
    let steps = steps(alloc, scope, body)?;
    scope.truncate(names);
    Ok(Statement::Pardo {
        location,
        low: first,
        high: last,
        locals: locals.len(),
        body: steps,
    })
}

/// What a statement outside pardo says, in these `for` loops, if all in it may stand where it does.
#[cycle(statement)]
fn statement<'a>(
    alloc: Global,
    scope: &mut Scope<'a>,
    loops: &[usize],
    statement: &'a Stmt,
) -> Result<Statement, CheckFault>
    ensures is { Judges (SaysStatement scope.old statement.now)
        (statement_breaches statement.now (outside_of scope.old loops.now)) result }
    ensures scope { OnOk result (scope.new ≡ scope.old) }
{
    match statement {
        Stmt::Assign { target, value } => assign(alloc, scope, loops, target, value),
        Stmt::AssignElement {
            target,
            subscript,
            value,
        } => assign_element(alloc, scope, loops, target, subscript, value),
        Stmt::Print { location, value: e } => {
            let item = value(alloc, scope, e)?;
            Ok(Statement::Print {
                location: *location,
                value: item,
            })
        }
        Stmt::While {
            location,
            test,
            body,
        } => {
            let test = value(alloc, scope, test)?;
            let body = statements(alloc, scope, loops, body.as_slice())?;
            Ok(Statement::While {
                location: *location,
                test,
                body,
            })
        }
        Stmt::If {
            location,
            test,
            then_part,
            else_part,
        } => {
            let test = value(alloc, scope, test)?;
            let then_part = statements(alloc, scope, loops, then_part.as_slice())?;
            match else_part {
                None => Ok(Statement::If {
                    location: *location,
                    test,
                    then_part,
                    else_part: Vec::new(alloc),
                }),
                Some(other) => {
                    let other = statements(alloc, scope, loops, other.as_slice())?;
                    Ok(Statement::If {
                        location: *location,
                        test,
                        then_part,
                        else_part: other,
                    })
                }
            }
        }
        Stmt::For {
            location,
            variable: x,
            low,
            high,
            body,
        } => {
            let variable = variable(scope, loops, x)?;
            let (low, high) = values(alloc, scope, low, high)?;
            let mut inner = Vec::from_slice(alloc, loops)?;
            inner.push(variable)?;
            let body = statements(alloc, scope, inner.as_slice(), body.as_slice())?;
            Ok(Statement::For {
                location: *location,
                variable,
                low,
                high,
                body,
            })
        }
        Stmt::Pardo {
            location,
            low,
            index,
            high,
            locals,
            body,
        } => {
            pardo(
                alloc,
                scope,
                loops,
                *location,
                low,
                index,
                high,
                locals.as_slice(),
                body.as_slice(),
            )
        }
    }
}

/// What a list of statements outside pardo says.
#[cycle(statement)]
pub fn statements<'a>(
    alloc: Global,
    scope: &mut Scope<'a>,
    loops: &[usize],
    body: &'a [Stmt],
) -> Result<Vec<Statement>, CheckFault>
    ensures is { Judges (λ v. SayStatements scope.old body.now v.items)
        (block_breaches body.now (outside_of scope.old loops.now)) result }
    ensures scope { OnOk result (scope.new ≡ scope.old) }
{
    let mut found = Vec::new(alloc);
    for x in body {
        found.push(statement(alloc, scope, loops, x)?)?;
    }
    Ok(found)
}
