//! Attempts at expressions, of all that see what is known.

ghost use Rattle.std.specs.Prelude.{◌≡◌, ℤ, IfOk, IfSome, OnOk};
ghost use Rattle.intervals.specs.Intervals.{IsIn, IsPoint};
ghost use Rattle.pram_names.specs.declared.body.Expression.{Number};
ghost use Rattle.pram_model.specs.Layout.{cell_of};
ghost use Rattle.pram_meaning.specs.Store.{View};
ghost use Rattle.pram_meaning.specs.Attempt.{Trail, attempt, read};
ghost use Rattle.abstract_runs.specs.Covers.{IsAmong, Shows};
ghost use Rattle.abstract_runs.specs.Finding.{AreKept};
ghost use Rattle.abstract_runs.specs.Tried.{GoesThrough, IsTried, IsLonger};

use crate::findings::Findings;
use crate::operating::{note_if, operate, operate_before};
use crate::outlook::{Outlook, interval_at};
use crate::placing::cells_at;
use crate::reach::{Reach, read_cells};
use all_inputs::Reason;
use intervals::Interval;
use pram_check::Expression;
use pram_values::Kind;
use std::alloc::AllocError;

// A read of the cell at a subscript, at the next position. None where each is out of range.
fn read_at(
    known: &Outlook,
    entry: usize,
    subscript: Interval,
    trail: &mut Vec<Option<Reach>>,
    faults: &mut Findings,
) -> Result<Option<Interval>, AllocError>
    ensures tried { IfOk result (λ value. (s : View) (t : Trail) (z : ℤ) → Shows known.now s → IsIn z subscript →
        GoesThrough trail.old.items t → IsTried (IsAmong value) trail.new.items faults.new
        (read s (cell_of s.layout entry z) t)) }
    ensures longer { OnOk result (IsLonger trail.old.items trail.new.items) }
    ensures kept { AreKept faults.old faults.new }
{
    let place = cells_at(known.layout, entry, subscript);
    trail.push(place.reach)?;
    note_if(
        place.may_be_outside,
        Kind::OutOfRange,
        trail.len(),
        Reason::Subscript { entry, subscript },
        faults,
    );
    match place.reach {
        Some(reach) => Ok(Some(read_cells(known.cells, reach))),
        None => Ok(None),
    }
}

/// What an expression gives, from the positions gone through on; none where it faults whatever is seen.
pub fn value_of(
    known: &Outlook,
    e: &Expression,
    trail: &mut Vec<Option<Reach>>,
    faults: &mut Findings,
) -> Result<Option<Interval>, AllocError>
    // The attempt of each that sees what is known reads along the trail, and gives a value of the interval or fails by a
    // fault that may come.
    ensures tried { IfOk result (λ value. (s : View) (t : Trail) → Shows known.now s → GoesThrough trail.old.items t →
        IsTried (IsAmong value) trail.new.items faults.new (attempt s e.now t)) }
    // A number gives itself.
    ensures number { (n : ℤ) → e.now ≡ Number n → IfOk result (λ value. IfSome value (IsPoint n)) }
    // The positions of before stay the first ones.
    ensures longer { OnOk result (IsLonger trail.old.items trail.new.items) }
    // Each fault that might come before may come still.
    ensures kept { AreKept faults.old faults.new }
{
    match e {
        Expression::Number(n) => Ok(Some(Interval::point(*n))),
        Expression::Uniform(x) => Ok(Some(interval_at(known.uniforms, *x))),
        Expression::Index => Ok(Some(Interval::point(known.index))),
        Expression::Local(x) => Ok(Some(interval_at(known.locals, *x))),
        Expression::Cell(a) => read_at(known, *a, Interval::point(0), trail, faults),
        Expression::Element(a, subscript) => {
            match value_of(known, subscript, trail, faults)? {
                Some(z) => {
                    let value = read_at(known, *a, z, trail, faults)?;
                    Ok(value)
                }
                None => Ok(None),
            }
        }
        Expression::Prefix(operator, operand) => {
            match value_of(known, operand, trail, faults)? {
                Some(v) => {
                    let value = operate_before(*operator, v, trail, faults)?;
                    Ok(value)
                }
                None => Ok(None),
            }
        }
        Expression::Chain(first, links) => {
            let Some(mut value) = value_of(known, first, trail, faults)? else {
                return Ok(None);
            };
            for link in links {
                let Some(operand) = value_of(known, &link.operand, trail, faults)? else {
                    return Ok(None);
                };
                let Some(given) = operate(link.operator, value, operand, trail, faults)? else {
                    return Ok(None);
                };
                value = given;
            }
            Ok(Some(value))
        }
    }
}
