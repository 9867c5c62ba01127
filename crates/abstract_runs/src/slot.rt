//! Single values that are kept from one statement to the next.

ghost use Rattle.std.specs.Prelude.{◌≡◌, ℤ, IfOk, IfSome};
ghost use Rattle.intervals.specs.Intervals.{IsIn};
ghost use Rattle.pram_model.specs.Layout.{cell_of};
ghost use Rattle.pram_meaning.specs.Attempt.{Gives, Trail, read};
ghost use Rattle.pram_meaning.specs.Store.{View};
ghost use Rattle.abstract_runs.specs.Covers.{IsAmong, Shows};
ghost use Rattle.abstract_runs.specs.Tests.{IsValueOf, value_at};

use crate::attempt::value_of;
use crate::findings::Findings;
use crate::outlook::Outlook;
use crate::placing::cells_at;
use intervals::Interval;
use pram_check::Expression;
use pram_trees::Layout;
use std::alloc::{AllocError, Global};

/// One value that is kept from one statement to the next: a uniform variable, or a cell.
#[derive(Clone, Copy, Debug, PartialEq, Eq)]
pub(crate) enum Slot {
    Uniform(usize),
    Cell(u32),
}

/// The interval of what an expression gives, if it gives anything. What it reads and its faults are told elsewhere.
pub(crate) fn value_seen(
    alloc: Global,
    known: &Outlook,
    e: &Expression,
) -> Result<Option<Interval>, AllocError>
    // What it gives to any that sees what is known lies in the interval.
    ensures { IfOk result (λ value. (s : View) (z : ℤ) → Shows known.now s → IsValueOf s e.now z → IsAmong value z) }
{
    let mut trail = Vec::new(alloc);
    let mut faults = Findings::none();
    let value = value_of(known, e, &mut trail, &mut faults)?;
    Ok(value)
}

// The one cell to which the subscripts of an interval lead, if they lead to no other.
fn only_cell(layout: &Layout, entry: usize, subscript: Interval) -> Option<Slot>
    ensures { IfSome result (λ slot. (s : View) (t u : Trail) (z v : ℤ) → s.layout ≡ layout.now → IsIn z subscript →
        read s (cell_of s.layout entry z) t ≡ Gives u v → v ≡ value_at slot s.uniforms s.cells) }
{
    let Some(reach) = cells_at(layout, entry, subscript).reach else {
        return None;
    };
    if reach.least == reach.most {
        Some(Slot::Cell(reach.least))
    } else {
        None
    }
}

/// The slot whose value an expression is, if it is that of one alone.
pub(crate) fn slot_of(
    alloc: Global,
    known: &Outlook,
    e: &Expression,
) -> Result<Option<Slot>, AllocError>
    // What it gives to any that sees what is known is the value in the slot.
    ensures { IfOk result (λ found. IfSome found (λ slot. (s : View) (z : ℤ) → Shows known.now s → IsValueOf s e.now z →
        z ≡ value_at slot s.uniforms s.cells)) }
{
    match e {
        Expression::Uniform(x) => Ok(Some(Slot::Uniform(*x))),
        Expression::Cell(a) => Ok(only_cell(known.layout, *a, Interval::point(0))),
        Expression::Element(a, subscript) => match value_seen(alloc, known, subscript)? {
            Some(z) => Ok(only_cell(known.layout, *a, z)),
            None => Ok(None),
        },
        Expression::Number(_)
        | Expression::Index
        | Expression::Local(_)
        | Expression::Prefix(_, _)
        | Expression::Chain(_, _) => Ok(None),
    }
}
