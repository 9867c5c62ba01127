//! The code of what a statement evaluates: its reads by level, and then what stands around them.

ghost use Rattle.std.specs.Prelude.{◌≡◌, ◌+◌, ◌<◌, ◌^◌, IfOk, OnOk, true};
ghost use Rattle.plain_form.specs.Formulas as formulas;
ghost use Rattle.plain_form.specs.Groups as groups;
ghost use Rattle.plain_form.specs.Regions as regions;
ghost use Rattle.plain_form.specs.Shapes as shapes;
ghost use Rattle.straight_lowering.specs.Cursors.{behind};
ghost use Rattle.straight_lowering.specs.Operands.{formula, second_place, held_behind};
ghost use Rattle.straight_lowering.specs.Room.{HasRoom, IsRoomFor};
ghost use Rattle.straight_lowering.specs.Written.{added, wrote};

use crate::cursor::{Cursor, next_register, passed};
use crate::emitter::Emitter;
use crate::reads::{ZERO, asks, greater, nesting};
use crate::region::region;
use pram_check::Expression;
use std::alloc::AllocError;
use superstep_instructions::Side;

/// What a statement evaluates.
#[derive(Clone, Copy)]
pub(crate) enum Operands<'a> {
    /// A value.
    Value(&'a Expression),
    /// A value for a single cell, whose subscript is the register that stays 0.
    ForCell(&'a Expression),
    /// A subscript and a value, or two bounds.
    Both(&'a Expression, &'a Expression),
}

/// The registers of the values, and how far the evaluation has come behind them.
#[derive(Clone, Copy)]
pub(crate) struct Values {
    pub first: u16,
    pub second: u16,
    pub behind: Cursor,
}

// How deep reads nest in subscripts of reads.
pub(crate) fn depth(operands: Operands) -> u32
    requires { formulas.reads (formula operands) + 1 < 2 ^ 32 }
    ensures { result ≡ formulas.nesting (formula operands.entry) }
{
    match operands {
        Operands::Value(e) => nesting(e),
        Operands::ForCell(e) => nesting(e),
        Operands::Both(e, f) => greater(nesting(e), nesting(f)),
    }
}

// Behind all of it.
fn behind_all(operands: Operands, at: Cursor) -> Cursor
    requires registers { at.read + formulas.reads (formula operands) < 2 ^ 16 }
    requires numbers { at.position + formulas.positions (formula operands) < 2 ^ 32 }
    ensures { result ≡ behind (formula operands.entry) at }
{
    match operands {
        Operands::Value(e) => passed(e, at),
        Operands::ForCell(e) => passed(e, at),
        Operands::Both(e, f) => {
            let first = passed(e, at);
            passed(f, first)
        }
    }
}

// The asks of one level.
fn level_asks(
    out: &mut Emitter,
    side: Side,
    level: u32,
    operands: Operands,
    at: Cursor,
    base: u16,
) -> Result<(), AllocError>
    requires room { HasRoom (formula operands) at.read base at.position }
    ensures { OnOk result (out.new ≡ added (groups.asks side level (formula operands.entry) at.read base at.position) out.old) }
{
    match operands {
        Operands::Value(e) => {
            asks(out, side, level, e, at, base)?;
        }
        Operands::ForCell(e) => {
            asks(out, side, level, e, at, base)?;
        }
        Operands::Both(e, f) => {
            let first = asks(out, side, level, e, at, base)?;
            asks(out, side, level, f, first.behind, base)?;
        }
    }
    Ok(())
}

// All reads, so many levels of them.
fn gather(
    out: &mut Emitter,
    side: Side,
    levels: u32,
    operands: Operands,
    base: u16,
    stack: u16,
) -> Result<(), AllocError>
    requires room { HasRoom (formula operands) base stack 0 }
    ensures { OnOk result (out.new ≡ wrote
        (groups.groups side levels 0 (formula operands.entry) base stack) (held_behind out.old.held levels) out.old) }
{
    let start = Cursor {
        read: base,
        position: 0,
    };
    for level in 0..levels {
        level_asks(out, side, level, operands, start, stack)?;
        out.exchange()?;
    }
    Ok(())
}

// What stands around the reads.
fn regions(
    out: &mut Emitter,
    side: Side,
    operands: Operands,
    at: Cursor,
    base: u16,
) -> Result<Values, AllocError>
    requires room { HasRoom (formula operands) at.read base at.position }
    ensures written { IfOk result (λ v. out.new ≡ added (regions.region side (formula operands.entry) at.read base at.position) out.old) }
    ensures first { IfOk result (λ v. v.first ≡ regions.place side (formula operands.entry) at.read base) }
    ensures second { IfOk result (λ v. v.second ≡ second_place side operands.entry at.read base) }
    ensures behind { IfOk result (λ v. v.behind ≡ behind (formula operands.entry) at) }
{
    match operands {
        Operands::Value(e) => {
            let found = region(out, side, e, at, base)?;
            Ok(Values {
                first: found.register,
                second: ZERO,
                behind: found.behind,
            })
        }
        Operands::ForCell(e) => {
            let above = next_register(base);
            let found = region(out, side, e, at, above)?;
            Ok(Values {
                first: ZERO,
                second: found.register,
                behind: found.behind,
            })
        }
        Operands::Both(e, f) => {
            let above = next_register(base);
            let first = region(out, side, e, at, base)?;
            let second = region(out, side, f, first.behind, above)?;
            Ok(Values {
                first: first.register,
                second: second.register,
                behind: second.behind,
            })
        }
    }
}

/// The code of what a statement evaluates, whose registers begin at `base`.
pub(crate) fn evaluate(
    out: &mut Emitter,
    side: Side,
    operands: Operands,
    base: u16,
) -> Result<Values, AllocError>
    requires room { IsRoomFor (formula operands) base }
    ensures written { IfOk result (λ v. out.new ≡ wrote
        (groups.evaluated side base (formula operands.entry)) (shapes.still out.old.held (formula operands.entry)) out.old) }
    ensures first { IfOk result (λ v. v.first ≡ groups.value_at side base (formula operands.entry)) }
    ensures second { IfOk result (λ v. v.second ≡ second_place side operands.entry base (groups.stack base (formula operands.entry))) }
    ensures position { IfOk result (λ v. v.behind.position ≡ formulas.positions (formula operands.entry)) }
{
    let start = Cursor {
        read: base,
        position: 0,
    };
    let levels = depth(operands);
    let stack = behind_all(operands, start);
    gather(out, side, levels, operands, base, stack.read)?;
    regions(out, side, operands, start, stack.read)
}

/// The mark of a statement, and the code of what it evaluates.
pub(crate) fn count(
    out: &mut Emitter,
    side: Side,
    line: u32,
    operands: Operands,
    base: u16,
) -> Result<Values, AllocError>
    requires room { IsRoomFor (formula operands) base }
    ensures written { IfOk result (λ v. out.new ≡ wrote
        (shapes.counted true out.old.held line side base (formula operands.entry))
        (shapes.still out.old.held (formula operands.entry)) out.old) }
    ensures first { IfOk result (λ v. v.first ≡ groups.value_at side base (formula operands.entry)) }
    ensures second { IfOk result (λ v. v.second ≡ second_place side operands.entry base (groups.stack base (formula operands.entry))) }
    ensures position { IfOk result (λ v. v.behind.position ≡ formulas.positions (formula operands.entry)) }
{
    out.mark(line)?;
    evaluate(out, side, operands, base)
}
