//! Statements inside pardo: their names resolved.

ghost use Rattle.std.specs.Prelude.{◌≡◌, ◌++◌, [], ◌∷◌, true};
ghost use Rattle.pram_names.specs.Breaches.{statement_breaches, block_breaches, else_breaches, inside_of};
ghost use Rattle.pram_names.specs.Resolved.{SaysStep, SaySteps, SayElse};
ghost use Rattle.pram_names.specs.Walk.{Judges};

use pram_names::{
    Cause, CheckFault, Scope, Step, StepTarget, breach, element_target, inner_target, value, values,
};
use pram_trees::{Expr, Name, Stmt};
use std::alloc::Global;

// An assignment without subscript.
fn assign(alloc: Global, scope: &Scope, target: &Name, e: &Expr) -> Result<Step, CheckFault>
    ensures { Judges (SaysStep scope.now (Stmt.Assign target.now e.now))
        (statement_breaches (Stmt.Assign target.now e.now) (inside_of scope.now)) result }
{
    let cell = inner_target(scope, target)?;
    let value = value(alloc, scope, e)?;
    Ok(Step::Assign {
        location: target.location,
        target: cell,
        value,
    })
}

// An assignment to an array at a subscript.
fn assign_element(
    alloc: Global,
    scope: &Scope,
    target: &Name,
    subscript: &Expr,
    e: &Expr,
) -> Result<Step, CheckFault>
    ensures { Judges (SaysStep scope.now (Stmt.AssignElement target.now subscript.now e.now))
        (statement_breaches (Stmt.AssignElement target.now subscript.now e.now) (inside_of scope.now)) result }
{
    let array = element_target(scope, target)?;
    let (subscript, value) = values(alloc, scope, subscript, e)?;
    Ok(Step::Assign {
        location: target.location,
        target: StepTarget::Element(array, subscript),
        value,
    })
}

/// What a statement inside pardo says, if all in it may stand where it does.
#[cycle(step)]
fn step(alloc: Global, scope: &Scope, statement: &Stmt) -> Result<Step, CheckFault>
    ensures { Judges (SaysStep scope.now statement.now)
        (statement_breaches statement.now (inside_of scope.now)) result }
{
    match statement {
        Stmt::Assign { target, value } => assign(alloc, scope, target, value),
        Stmt::AssignElement {
            target,
            subscript,
            value,
        } => assign_element(alloc, scope, target, subscript, value),
        Stmt::Print { location, .. } => Err(breach(*location, Cause::WrongKind)),
        Stmt::While {
            location,
            test,
            body,
        } => {
            let test = value(alloc, scope, test)?;
            let body = steps(alloc, scope, body.as_slice())?;
            Ok(Step::While {
                location: *location,
                test,
                body,
            })
        }
        Stmt::If {
            location,
            test,
            then_part,
            else_part,
        } => {
            let test = value(alloc, scope, test)?;
            let then_part = steps(alloc, scope, then_part.as_slice())?;
            match else_part {
                None => Ok(Step::If {
                    location: *location,
                    test,
                    then_part,
                    else_part: Vec::new(alloc),
                }),
                Some(other) => {
                    let other = steps(alloc, scope, other.as_slice())?;
                    Ok(Step::If {
                        location: *location,
                        test,
                        then_part,
                        else_part: other,
                    })
                }
            }
        }
        Stmt::For { location, .. } => Err(breach(*location, Cause::WrongKind)),
        Stmt::Pardo { location, .. } => Err(breach(*location, Cause::WrongKind)),
    }
}

/// What the statements of a pardo's body say.
#[cycle(step)]
pub fn steps(alloc: Global, scope: &Scope, body: &[Stmt]) -> Result<Vec<Step>, CheckFault>
    ensures { Judges (λ v. SaySteps scope.now body.now v.items) (block_breaches body.now (inside_of scope.now)) result }
{
    let mut found = Vec::new(alloc);
    for statement in body {
        found.push(step(alloc, scope, statement)?)?;
    }
    Ok(found)
}
