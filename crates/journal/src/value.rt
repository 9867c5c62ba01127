//! Values of expressions, or why they have none.

ghost use Rattle.std.specs.Prelude.{◌≡◌};
ghost use Rattle.pram_model.specs.Layout.{cell_of};
ghost use Rattle.pram_meaning.specs.Operation.{operate, operate_before};
ghost use Rattle.pram_meaning.specs.Runs.{view_is};
ghost use Rattle.journal.specs.Causes as told;
ghost use Rattle.journal.specs.Answers.{IsFound};
ghost use Rattle.journal.specs.FoundCauses as spec;

use crate::Cause;
use pram_check::Expression;
use pram_meaning::view::{View, number_at};
use pram_meaning::{apply, apply_before};
use pram_trees::{Binary, Prefix};

// What stands in a cell of a declaration.
fn read(view: &View, entry: usize, subscript: i64) -> Result<i64, Cause>
    ensures { IsFound result (spec.read_or_cause (view_is view.now) entry subscript (cell_of (view_is view.now).layout entry subscript)) }
{
    match view.layout.cell(entry, subscript) {
        Some(cell) => Ok(number_at(view.cells, cell as usize)),
        None => Err(Cause::Beyond { entry, subscript }),
    }
}

// An operation on two values.
fn between(left: i64, operator: Binary, right: i64) -> Result<i64, Cause>
    ensures { IsFound result (spec.unless_wrong (told.Between left operator right) (operate operator left right)) }
{
    match apply(operator, left, right) {
        Ok(value) => Ok(value),
        Err(_) => Err(Cause::Between {
            left,
            operator,
            right,
        }),
    }
}

// An operation on one value.
fn before(operator: Prefix, operand: i64) -> Result<i64, Cause>
    ensures { IsFound result (spec.unless_wrong (told.Before operator operand) (operate_before operator operand)) }
{
    match apply_before(operator, operand) {
        Ok(value) => Ok(value),
        Err(_) => Err(Cause::Before { operator, operand }),
    }
}

/// The value of an expression, or why it has none.
#[tactic(auto, using(crate::proofs::Links::chain_starts, crate::proofs::Links::link_fails, crate::proofs::Links::link_done, crate::proofs::Links::link_stops, crate::proofs::Links::links_end))]
pub fn value_or_cause(view: &View, e: &Expression) -> Result<i64, Cause>
    ensures { IsFound result (spec.value_or_cause (view_is view.now) e.now) }
{
    match e {
        Expression::Number(n) => Ok(*n),
        Expression::Uniform(x) => Ok(number_at(view.uniforms, *x)),
        Expression::Index => Ok(view.index),
        Expression::Local(x) => Ok(number_at(view.locals, *x)),
        Expression::Cell(entry) => read(view, *entry, 0),
        Expression::Element(entry, subscript) => {
            let z = value_or_cause(view, subscript)?;
            read(view, *entry, z)
        }
        Expression::Prefix(operator, operand) => {
            let v = value_or_cause(view, operand)?;
            before(*operator, v)
        }
        Expression::Chain(first, links) => {
            let mut value = value_or_cause(view, first)?;
            for link in links {
                let operand = value_or_cause(view, &link.operand)?;
                value = between(value, link.operator, operand)?;
            }
            Ok(value)
        }
    }
}
