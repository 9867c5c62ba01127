//! The reads of an expression, level by level.

ghost use Rattle.std.specs.Prelude.{◌≡◌, ◌∷◌, [], IfOk, OnOk, max, ◌+◌, ◌<◌, ◌^◌};
ghost use Rattle.superstep_instructions.specs.declared.instr.Instr.TheVariants.{Ask};
ghost use Rattle.plain_form.specs.Formulas as formulas;
ghost use Rattle.plain_form.specs.Formulas.{formula_of};
ghost use Rattle.plain_form.specs.Groups as groups;
ghost use Rattle.straight_lowering.specs.Depths.{depth_of, read_depth, cell_asks};
ghost use Rattle.straight_lowering.specs.Room.{HasRoom};
ghost use Rattle.straight_lowering.specs.Written.{added};

use crate::cursor::{Cursor, next_number};
use crate::emitter::{Emitter, short};
use crate::region::region;
use pram_check::Expression;
use std::alloc::AllocError;
use superstep_instructions::{Instr, Side};

/// The register that stays 0.
pub(crate) const ZERO: u16 = 0;

/// The greater of two numbers.
pub(crate) fn greater(a: u32, b: u32) -> u32
    ensures { result ≡ max a b }
{
    if a < b { b } else { a }
}

/// How deep reads nest in subscripts of reads.
#[tactic(auto, using(crate::proofs::Chains::so_far_none, crate::proofs::Chains::so_far_more, crate::proofs::Chains::so_far_all, crate::proofs::Rooms::nesting_reads))]
pub(crate) fn nesting(e: &Expression) -> u32
    requires { formulas.reads (formula_of e.now) + 1 < 2 ^ 32 }
    ensures { result ≡ formulas.nesting (formula_of e.now) }
{
    match e {
        Expression::Number(_) => 0,
        Expression::Uniform(_) => 0,
        Expression::Index => 0,
        Expression::Local(_) => 0,
        Expression::Cell(_) => 1,
        Expression::Element(_, subscript) => {
            let inner = nesting(subscript);
            next_number(inner)
        }
        Expression::Prefix(_, operand) => nesting(operand),
        Expression::Chain(first, links) => {
            let mut most = nesting(first);
            for link in links {
                let operand = nesting(&link.operand);
                most = greater(most, operand);
            }
            most
        }
    }
}

/// How deep reads nest in an expression, and how far the evaluation has come behind it.
#[derive(Clone, Copy)]
pub(crate) struct Depth {
    pub nesting: u32,
    pub behind: Cursor,
}

// The read behind a subscript.
fn behind_subscript(inner: Depth) -> Depth
    requires register { inner.behind.read + 1 < 2 ^ 16 }
    requires position { inner.behind.position + 1 < 2 ^ 32 }
    requires nesting { inner.nesting + 1 < 2 ^ 32 }
    ensures { result ≡ read_depth inner }
{
    Depth {
        nesting: next_number(inner.nesting),
        behind: inner.behind.behind_read(),
    }
}

// A read of a cell at a subscript.
fn ask(
    out: &mut Emitter,
    side: Side,
    entry: usize,
    subscript: u16,
    destination: u16,
    position: u32,
) -> Result<(), AllocError>
    requires { entry < 2 ^ 16 }
    ensures { OnOk result (out.new ≡ added (Ask side destination entry subscript position ∷ []) out.old) }
{
    let entry = short(entry);
    out.push(Instr::Ask {
        side,
        destination,
        entry,
        subscript,
        position,
    })
}

fn nothing_read(at: Cursor) -> Depth
    ensures { result ≡ record { nesting = 0; behind = at } }
{
    Depth {
        nesting: 0,
        behind: at,
    }
}

// The read of a single cell, if its level is the one that is gathered.
fn ask_cell(
    out: &mut Emitter,
    side: Side,
    level: u32,
    entry: usize,
    at: Cursor,
) -> Result<Depth, AllocError>
    requires entry { entry < 2 ^ 16 }
    requires register { at.read + 1 < 2 ^ 16 }
    requires position { at.position + 1 < 2 ^ 32 }
    ensures written { IfOk result (λ d. out.new ≡ added (cell_asks side level entry at) out.old) }
    ensures depth { IfOk result (λ d. d ≡ depth_of (formulas.Read entry formulas.Zero) at) }
{
    let behind = at.behind_read();
    if level == 0 {
        ask(out, side, entry, ZERO, at.read, behind.position)?;
    }
    Ok(Depth { nesting: 1, behind })
}

/// The asks of the reads with so many reads nested in their subscripts, each behind its subscript.
/// The stack begins at `base`.
#[tactic(auto, using(crate::proofs::Chains::so_far_none, crate::proofs::Chains::so_far_more, crate::proofs::Chains::so_far_all, crate::proofs::Rooms::nesting_reads))]
pub(crate) fn asks(
    out: &mut Emitter,
    side: Side,
    level: u32,
    e: &Expression,
    at: Cursor,
    base: u16,
) -> Result<Depth, AllocError>
    requires room { HasRoom (formula_of e.now) at.read base at.position }
    ensures written { IfOk result (λ d. out.new ≡ added (groups.asks side level (formula_of e.now) at.read base at.position) out.old) }
    ensures depth { IfOk result (λ d. d ≡ depth_of (formula_of e.now) at) }
{
    match e {
        Expression::Number(_) => Ok(nothing_read(at)),
        Expression::Uniform(_) => Ok(nothing_read(at)),
        Expression::Index => Ok(nothing_read(at)),
        Expression::Local(_) => Ok(nothing_read(at)),
        Expression::Cell(entry) => ask_cell(out, side, level, *entry, at),
        Expression::Element(entry, subscript) => {
            let inner = asks(out, side, level, subscript, at, base)?;
            let depth = behind_subscript(inner);
            if inner.nesting == level {
                let value = region(out, side, subscript, at, base)?;
                let read = value.behind;
                ask(
                    out,
                    side,
                    *entry,
                    value.register,
                    read.read,
                    depth.behind.position,
                )?;
            }
            Ok(depth)
        }
        Expression::Prefix(_, operand) => {
            let inner = asks(out, side, level, operand, at, base)?;
            let behind = inner.behind.behind_operator();
            Ok(Depth {
                nesting: inner.nesting,
                behind,
            })
        }
        Expression::Chain(first, links) => {
            let mut left = asks(out, side, level, first, at, base)?;
            for link in links {
                let right = asks(out, side, level, &link.operand, left.behind, base)?;
                let behind = right.behind.behind_operator();
                left = Depth {
                    nesting: greater(left.nesting, right.nesting),
                    behind,
                };
            }
            Ok(left)
        }
    }
}
