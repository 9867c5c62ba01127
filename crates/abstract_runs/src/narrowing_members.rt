//! What is left of what is known of processors whose test came out true or false.

ghost use Rattle.std.specs.Prelude.{◌≡◌, ℕ, ℤ, List, Ok, pos, true, IfOk, IfSome, OnOk, slice_index_or};
ghost use Rattle.intervals.specs.Comparisons.{holds};
ghost use Rattle.intervals.specs.Intervals.{IsIn};
ghost use Rattle.pram_values.specs.Truth.{is_nonzero};
ghost use Rattle.pram_meaning.specs.Operation as spec;
ghost use Rattle.pram_meaning.specs.Store.{State, View, Member as AnyMember, member_of, seen_by};
ghost use Rattle.all_inputs.specs.Overall.{Cover};
ghost use Rattle.abstract_runs.specs.Covers.{Shows};
ghost use Rattle.abstract_runs.specs.Inner.{AreKnownIn, AreWay, IsKnownAt};
ghost use Rattle.abstract_runs.specs.Standing.{IsKnownAs, IsMemberOf};
ghost use Rattle.abstract_runs.specs.Tests.{ComesTo, IsValueOf};

use crate::narrowing_sides::{held, held_alone};
use crate::narrowing_slots::narrow_place;
use crate::narrowing_tests::{split_all, way_before};
use crate::outlook::Outlook;
use crate::slot::value_seen;
use crate::standing::{Member, Standing};
use intervals::{Comparison, Interval, comparison_of};
use pram_check::{Expression, Program};
use pram_trees::Binary;
use std::alloc::{AllocError, Global};

// What is left of the locals where a comparison of the expression's value with a number of the interval holds.
fn narrow_local(locals: &mut Vec<Interval>, e: &Expression, comparison: Comparison, other: Interval)
    ensures { (s : View) (z y : ℤ) → Cover locals.old.items s.locals → IsValueOf s e.now z → IsIn y other →
        holds comparison z y ≡ true → Cover locals.new.items s.locals }
{
    if let Expression::Local(x) = e {
        let _ = narrow_place(locals, *x, comparison, other);
    }
}

// The same where a comparison of two expressions' values holds.
fn narrow_local_sides(
    alloc: Global,
    known: &Outlook,
    locals: &mut Vec<Interval>,
    left: &Expression,
    comparison: Comparison,
    right: &Expression,
) -> Result<(), AllocError>
    ensures { OnOk result ((s : View) (x y : ℤ) → Shows known.now s → Cover locals.old.items s.locals → IsValueOf s left.now x →
        IsValueOf s right.now y → holds comparison x y ≡ true → Cover locals.new.items s.locals) }
{
    let Some(lefts) = value_seen(alloc, known, left)? else {
        return Ok(());
    };
    let Some(rights) = value_seen(alloc, known, right)? else {
        return Ok(());
    };
    narrow_local(locals, left, comparison, rights);
    narrow_local(locals, right, comparison.mirrored(), lefts);
    Ok(())
}

// The same where an operator between two expressions came out so, if it is a comparison.
fn narrow_locals_compared(
    alloc: Global,
    known: &Outlook,
    locals: &mut Vec<Interval>,
    left: &Expression,
    operator: Binary,
    right: &Expression,
    way: bool,
) -> Result<(), AllocError>
    ensures { OnOk result ((s : View) (x y z : ℤ) → Shows known.now s → Cover locals.old.items s.locals → IsValueOf s left.now x →
        IsValueOf s right.now y → spec.operate operator x y ≡ Ok z → is_nonzero z ≡ way → Cover locals.new.items s.locals) }
{
    let Some(comparison) = comparison_of(operator) else {
        return Ok(());
    };
    narrow_local_sides(alloc, known, locals, left, held(comparison, way), right)?;
    Ok(())
}

/// What is left of a processor's locals where its test came out true or false.
pub(crate) fn narrow_locals(
    alloc: Global,
    known: &Outlook,
    locals: &mut Vec<Interval>,
    e: &Expression,
    way: bool,
) -> Result<(), AllocError>
    // The locals of each that sees what is known, and whose test comes out so, lie in what is left.
    ensures { OnOk result ((s : View) → Shows known.now s → Cover locals.old.items s.locals → ComesTo s e.now way →
        Cover locals.new.items s.locals) }
{
    match e {
        Expression::Prefix(operator, operand) => {
            narrow_locals(alloc, known, locals, operand, way_before(*operator, way))?;
            Ok(())
        }
        Expression::Chain(first, links) => {
            if !split_all(links, way) {
                if links.len() != 1 {
                    return Ok(());
                }
                let link = &links[0];
                narrow_locals_compared(
                    alloc,
                    known,
                    locals,
                    first,
                    link.operator,
                    &link.operand,
                    way,
                )?;
                return Ok(());
            }
            narrow_locals(alloc, known, locals, first, way)?;
            for link in links {
                narrow_locals(alloc, known, locals, &link.operand, way)?;
            }
            Ok(())
        }
        Expression::Number(_)
        | Expression::Uniform(_)
        | Expression::Index
        | Expression::Local(_)
        | Expression::Cell(_)
        | Expression::Element(_, _) => {
            narrow_local(locals, e, held_alone(way), Interval::point(0));
            Ok(())
        }
    }
}

// What is left of what is known of a processor.
fn narrowed_member(
    alloc: Global,
    program: &Program,
    known: &Standing,
    one: &Member,
    e: &Expression,
    way: bool,
) -> Result<Member, AllocError>
    ensures { IfOk result (λ left. (m : State) (v : ℕ) → IsKnownAs known.now m → IsMemberOf (member_of m.team v) one.now →
        ComesTo (seen_by program.now m v) e.now way → IsMemberOf (member_of m.team v) left) }
{
    let mut locals = Vec::from_slice(alloc, &one.locals)?;
    let seen = Outlook {
        layout: program.layout(),
        uniforms: &known.uniforms,
        cells: &known.cells,
        index: one.index,
        locals: &one.locals,
    };
    narrow_locals(alloc, &seen, &mut locals, e, way)?;
    Ok(Member {
        index: one.index,
        locals,
    })
}

// Whether an expression names a local.
fn names_local(e: &Expression) -> bool {
    match e {
        Expression::Local(_) => true,
        Expression::Number(_) | Expression::Uniform(_) | Expression::Index | Expression::Cell(_) =>
            false,
        Expression::Element(_, subscript) => names_local(subscript),
        Expression::Prefix(_, operand) => names_local(operand),
        Expression::Chain(first, links) => {
            for link in links {
                if names_local(&link.operand) {
                    return true;
                }
            }
            names_local(first)
        }
    }
}

/// What is left of what is known of each processor whose test came out true or false; none where a test names no local.
pub(crate) fn narrowed_team(
    alloc: Global,
    program: &Program,
    known: &Standing,
    team: &[Member],
    e: &Expression,
    way: bool,
) -> Result<Option<Vec<Member>>, AllocError>
    // Each processor of a set that was known so, and whose test came out so, is known by what is left.
    ensures { IfOk result (λ left. IfSome left (λ inner. (m : State) (vs : List ℕ) → IsKnownAs known.now m →
        AreKnownIn team.now vs m → AreWay program.now e.now way vs m → AreKnownIn inner.items vs m)) }
{
    if !names_local(e) {
        return Ok(None);
    }
    let mut inner = Vec::with_capacity(alloc, team.len())?;
    for k in 0..team.len() {
        let one = narrowed_member(alloc, program, known, &team[k], e, way)?;
        inner.push(one)?;
    }
    Ok(Some(inner))
}
