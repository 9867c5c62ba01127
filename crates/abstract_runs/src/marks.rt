//! The numbers to which intervals grow.

ghost use Rattle.std.specs.Prelude.{IfOk};
ghost use Rattle.std.specs.Ordering.{int_cmp};
ghost use Rattle.std.specs.List.Sorted.{IsStrictlySortedBy};

use intervals::Interval;
use pram_check::{Expression, Program, Statement, Step, StepTarget, Target};
use pram_trees::Layout;
use std::alloc::{AllocError, Global};

// A number, and those beside it.
fn note(marks: &mut Vec<i64>, number: i64) -> Result<(), AllocError> {
    marks.push(number.saturating_sub(1))?;
    marks.push(number)?;
    marks.push(number.saturating_add(1))?;
    Ok(())
}

// The constants of an expression.
fn note_expression(marks: &mut Vec<i64>, e: &Expression) -> Result<(), AllocError> {
    match e {
        Expression::Number(number) => note(marks, *number),
        Expression::Uniform(_) => Ok(()),
        Expression::Index => Ok(()),
        Expression::Local(_) => Ok(()),
        Expression::Cell(_) => Ok(()),
        Expression::Element(_, subscript) => note_expression(marks, subscript),
        Expression::Prefix(_, operand) => note_expression(marks, operand),
        Expression::Chain(first, links) => {
            note_expression(marks, first)?;
            for link in links {
                note_expression(marks, &link.operand)?;
            }
            Ok(())
        }
    }
}

// The constants of an assignment inside pardo.
fn note_step_assignment(
    marks: &mut Vec<i64>,
    target: &StepTarget,
    e: &Expression,
) -> Result<(), AllocError> {
    if let StepTarget::Element(_, subscript) = target {
        note_expression(marks, subscript)?;
    }
    note_expression(marks, e)?;
    Ok(())
}

// The constants of an assignment outside pardo.
fn note_assignment(
    marks: &mut Vec<i64>,
    target: &Target,
    e: &Expression,
) -> Result<(), AllocError> {
    if let Target::Element(_, subscript) = target {
        note_expression(marks, subscript)?;
    }
    note_expression(marks, e)?;
    Ok(())
}

// The constants of the bounds of a `for` or a pardo.
fn note_bounds(
    marks: &mut Vec<i64>,
    low: &Expression,
    high: &Expression,
) -> Result<(), AllocError> {
    note_expression(marks, low)?;
    note_expression(marks, high)?;
    Ok(())
}

// The constants of a statement inside pardo, with all that it holds.
#[cycle(steps)]
fn note_step(marks: &mut Vec<i64>, s: &Step) -> Result<(), AllocError> {
    match s {
        Step::Assign { target, value, .. } => note_step_assignment(marks, target, value),
        Step::If {
            test,
            then_part,
            else_part,
            ..
        } => {
            note_expression(marks, test)?;
            note_steps(marks, then_part)?;
            note_steps(marks, else_part)?;
            Ok(())
        }
        Step::While { test, body, .. } => {
            note_expression(marks, test)?;
            note_steps(marks, body)?;
            Ok(())
        }
    }
}

// The constants of a block inside pardo.
#[cycle(steps)]
fn note_steps(marks: &mut Vec<i64>, body: &Vec<Step>) -> Result<(), AllocError> {
    for s in body {
        note_step(marks, s)?;
    }
    Ok(())
}

// The constants of a statement outside pardo, with all that it holds.
#[cycle(statements)]
fn note_statement(marks: &mut Vec<i64>, s: &Statement) -> Result<(), AllocError> {
    match s {
        Statement::Assign { target, value, .. } => note_assignment(marks, target, value),
        Statement::Print { value, .. } => note_expression(marks, value),
        Statement::While { test, body, .. } => {
            note_expression(marks, test)?;
            note_block(marks, body)?;
            Ok(())
        }
        Statement::If {
            test,
            then_part,
            else_part,
            ..
        } => {
            note_expression(marks, test)?;
            note_block(marks, then_part)?;
            note_block(marks, else_part)?;
            Ok(())
        }
        Statement::For {
            low,
            high,
            body,
            ..
        } => {
            note_bounds(marks, low, high)?;
            note_block(marks, body)?;
            Ok(())
        }
        Statement::Pardo {
            low,
            high,
            body,
            ..
        } => {
            note_bounds(marks, low, high)?;
            note_steps(marks, body)?;
            Ok(())
        }
    }
}

// The constants of a block outside pardo.
#[cycle(statements)]
fn note_block(marks: &mut Vec<i64>, body: &Vec<Statement>) -> Result<(), AllocError> {
    for s in body {
        note_statement(marks, s)?;
    }
    Ok(())
}

// The bounds of the arrays.
fn note_arrays(marks: &mut Vec<i64>, layout: &Layout) -> Result<(), AllocError> {
    for entry in 0..layout.len() {
        if let Some((low, high)) = layout.bounds(entry) {
            note(marks, low)?;
            note(marks, high)?;
        }
    }
    Ok(())
}

// The numbers ascend, and none stands twice.
fn order(marks: &mut Vec<i64>)
    ensures { IsStrictlySortedBy int_cmp marks.new.items }
{
    marks.sort_unstable();
    marks.dedup();
}

/// The numbers to which intervals grow: the program's constants, the bounds of its arrays, the ends of the scope, 0 and the bound on
/// statements, as far as a counter comes in a run, each with those beside it; they ascend.
pub fn marks_of(
    alloc: Global,
    program: &Program,
    scope: Interval,
    bound: u32,
) -> Result<Vec<i64>, AllocError>
    // Each number is less than the next.
    ensures { IfOk result (λ marks. IsStrictlySortedBy int_cmp marks.items) }
{
    let mut marks = Vec::new(alloc);
    note(&mut marks, 0)?;
    note(&mut marks, scope.least())?;
    note(&mut marks, scope.greatest())?;
    note(&mut marks, i64::from(bound))?;
    note_arrays(&mut marks, program.layout())?;
    for s in program.body() {
        note_statement(&mut marks, s)?;
    }
    order(&mut marks);
    Ok(marks)
}
