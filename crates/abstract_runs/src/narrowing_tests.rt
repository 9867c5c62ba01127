//! What is left of what is known where a test came out true or false.

ghost use Rattle.std.specs.Prelude.{◌≡◌, ℤ, Ok, true, IfOk, OnOk};
ghost use Rattle.std.specs.List.{AllByRecursion};
ghost use Rattle.pram_values.specs.Truth.{is_nonzero};
ghost use Rattle.pram_meaning.specs.Operation as spec;
ghost use Rattle.pram_meaning.specs.Store.{State, seen};
ghost use Rattle.abstract_runs.specs.Following.{Follows};
ghost use Rattle.abstract_runs.specs.Standing.{StandsFor};
ghost use Rattle.abstract_runs.specs.Tests.{ComesTo, Splits};

use crate::narrowing_sides::{narrow_alone, narrow_compared};
use crate::standing::Standing;
use pram_check::{Expression, Link, Program};
use pram_trees::{Binary, Prefix};
use std::alloc::{AllocError, Global};

// Whether a result that goes that way has operands that both do: an `and` that is true, or an `or` that is false.
fn splits(operator: Binary, way: bool) -> bool
    ensures { result ≡ true → Splits operator way }
{
    if way {
        operator == Binary::And
    } else {
        operator == Binary::Or
    }
}

// Whether all operators of a chain are so.
pub(crate) fn split_all(links: &[Link], way: bool) -> bool
    ensures { result ≡ true → AllByRecursion (λ l. Splits l.operator way) links.now }
{
    for k in 0..links.len() {
        if !splits(links[k].operator, way) {
            return false;
        }
    }
    true
}

// Which way an operand goes where the operator before it gives what goes that way.
pub(crate) fn way_before(operator: Prefix, way: bool) -> bool
    ensures { (x z : ℤ) → spec.operate_before operator x ≡ Ok z → is_nonzero z ≡ way → is_nonzero x ≡ result }
{
    match operator {
        Prefix::Negate => way,
        Prefix::Not => !way,
    }
}

/// What is left where a test came out true or false; `false` where nothing is.
pub(crate) fn narrow(
    alloc: Global,
    program: &Program,
    known: &mut Standing,
    e: &Expression,
    way: bool,
) -> Result<bool, AllocError>
    // Each state in which it came out so is one for which what is left stands.
    ensures kept { IfOk result (λ on. (m : State) → StandsFor known.old m → ComesTo (seen program.now m) e.now way →
        (on ≡ true) × StandsFor known.new m) }
    // As many statements have run, and there are as many values.
    ensures follows { OnOk result (Follows known.old known.new) }
{
    match e {
        Expression::Prefix(operator, operand) => {
            let on = narrow(alloc, program, known, operand, way_before(*operator, way))?;
            Ok(on)
        }
        Expression::Chain(first, links) => {
            if !split_all(links, way) {
                if links.len() != 1 {
                    return Ok(true);
                }
                let link = &links[0];
                let on = narrow_compared(
                    alloc,
                    program,
                    known,
                    first,
                    link.operator,
                    &link.operand,
                    way,
                )?;
                return Ok(on);
            }
            if !narrow(alloc, program, known, first, way)? {
                return Ok(false);
            }
            for link in links {
                if !narrow(alloc, program, known, &link.operand, way)? {
                    return Ok(false);
                }
            }
            Ok(true)
        }
        Expression::Number(_)
        | Expression::Uniform(_)
        | Expression::Index
        | Expression::Local(_)
        | Expression::Cell(_)
        | Expression::Element(_, _) => {
            let on = narrow_alone(alloc, program, known, e, way)?;
            Ok(on)
        }
    }
}
