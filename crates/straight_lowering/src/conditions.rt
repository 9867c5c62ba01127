//! The tests of statements: of an `if` and a `while`, outside pardo and inside.

ghost use Rattle.std.specs.Prelude.{◌≡◌, OnOk, IfOk, true, false};
ghost use Rattle.plain_form.specs.Formulas.{formula_of};
ghost use Rattle.plain_form.specs.Groups as groups;
ghost use Rattle.plain_form.specs.Shapes as shapes;
ghost use Rattle.straight_lowering.specs.Room.{IsRoomFor};
ghost use Rattle.straight_lowering.specs.Straight as straight;
ghost use Rattle.straight_lowering.specs.Written.{wrote};
ghost use Rattle.superstep_instructions.specs.declared.instr.Side.TheVariants as Side;

use crate::emitter::Emitter;
use crate::values::{Operands, count};
use pram_check::Expression;
use std::alloc::AllocError;
use superstep_instructions::{Instr, Side};

/// The test of an `if` or a `while`: the register with its value.
pub fn tested(out: &mut Emitter, line: u32, test: &Expression, free: u16) -> Result<u16, AllocError>
    requires room { IsRoomFor (formula_of test.now) free }
    ensures register { IfOk result (λ r. r ≡ groups.value_at Side.Uniform free (formula_of test.now)) }
    ensures written { IfOk result (λ r. out.new ≡ wrote
        (shapes.counted true out.old.held line Side.Uniform free (formula_of test.now))
        (shapes.still out.old.held (formula_of test.now)) out.old) }
{
    let values = count(out, Side::Uniform, line, Operands::Value(test), free)?;
    Ok(values.first)
}

/// The test of an `if`, behind which nothing is held.
pub fn parted(out: &mut Emitter, line: u32, test: &Expression, free: u16) -> Result<u16, AllocError>
    requires room { IsRoomFor (formula_of test.now) free }
    ensures register { IfOk result (λ r. r ≡ groups.value_at Side.Uniform free (formula_of test.now)) }
    ensures written { IfOk result (λ r. out.new ≡ wrote (straight.parted out.old.held line free (formula_of test.now)) false out.old) }
{
    let source = tested(out, line, test, free)?;
    out.flush()?;
    Ok(source)
}

/// The test of an `if`.
pub fn masked(out: &mut Emitter, line: u32, test: &Expression, base: u16) -> Result<(), AllocError>
    requires room { IsRoomFor (formula_of test.now) base }
    ensures { OnOk result (out.new ≡ wrote (straight.masked out.old.held line base (formula_of test.now))
        (shapes.still out.old.held (formula_of test.now)) out.old) }
{
    let values = count(out, Side::Private, line, Operands::Value(test), base)?;
    out.push(Instr::Mask {
        source: values.first,
    })
}

/// The flag of a `while` is set, and the mask on it.
pub fn flagged(out: &mut Emitter, flag: u16) -> Result<(), AllocError>
    ensures { OnOk result (out.new ≡ wrote (shapes.flagged out.old.held flag) false out.old) }
{
    out.flush()?;
    out.push(Instr::Set {
        side: Side::Private,
        destination: flag,
        value: 1,
    })?;
    out.push(Instr::Mask { source: flag })
}

/// The test of a `while`.
pub fn flags(
    out: &mut Emitter,
    line: u32,
    test: &Expression,
    vote: u16,
    flag: u16,
    base: u16,
) -> Result<(), AllocError>
    requires room { IsRoomFor (formula_of test.now) base }
    ensures { OnOk result (out.new ≡ wrote (straight.flags out.old.held line vote flag base (formula_of test.now))
        (shapes.still out.old.held (formula_of test.now)) out.old) }
{
    let values = count(out, Side::Private, line, Operands::Value(test), base)?;
    out.push(Instr::Copy {
        side: Side::Private,
        destination: flag,
        source: values.first,
    })?;
    out.push(Instr::Unmask)?;
    out.push(Instr::Mask { source: flag })?;
    out.push(Instr::Vote { destination: vote })
}
