//! The code of statements without parts.

ghost use Rattle.std.specs.Prelude.{◌≡◌, ◌<◌, ◌^◌, ℕ, OnOk, true};
ghost use Rattle.plain_form.specs.Formulas.{formula_of};
ghost use Rattle.plain_form.specs.Inside as inside;
ghost use Rattle.plain_form.specs.Outside as outside;
ghost use Rattle.plain_form.specs.Shapes as shapes;
ghost use Rattle.straight_lowering.specs.Operands.{formula, held_behind, waiting, writes_of};
ghost use Rattle.straight_lowering.specs.Room.{IsRoomFor, IsAssignRoom, IsInnerAssignRoom};
ghost use Rattle.straight_lowering.specs.Written.{wrote};

use crate::cursor::next_number;
use crate::emitter::{Emitter, short};
use crate::region::{local, variable};
use crate::values::{Operands, count, depth};
use pram_check::{Expression, StepTarget, Target};
use std::alloc::AllocError;
use superstep_instructions::{Instr, Side};

// A value for a variable or a local.
fn get(
    out: &mut Emitter,
    side: Side,
    line: u32,
    value: &Expression,
    base: u16,
    destination: u16,
) -> Result<(), AllocError>
    requires room { IsRoomFor (formula_of value.now) base }
    ensures { OnOk result (out.new ≡ wrote
        (shapes.gets true out.old.held line side base (formula_of value.now) destination)
        (shapes.still out.old.held (formula_of value.now)) out.old) }
{
    let values = count(out, side, line, Operands::Value(value), base)?;
    out.push(Instr::Copy {
        side,
        destination,
        source: values.first,
    })
}

// Sends a write that is held, where no reads of so many levels send it.
fn send_before(out: &mut Emitter, levels: u32) -> Result<(), AllocError>
    ensures { OnOk result (out.new ≡ wrote (shapes.flush (held_behind out.old.held levels)) (waiting out.old.held levels) out.old) }
{
    if levels == 0 {
        out.flush()?;
    }
    Ok(())
}

// A write to a cell of a declaration.
fn write(
    out: &mut Emitter,
    side: Side,
    line: u32,
    entry: usize,
    operands: Operands,
    base: u16,
) -> Result<(), AllocError>
    requires entry { entry < 2 ^ 16 }
    requires room { IsRoomFor (formula operands) base }
    ensures { OnOk result (out.new ≡ wrote (writes_of out.old.held line side base entry operands.entry) true out.old) }
{
    let entry = short(entry);
    let levels = depth(operands);
    send_before(out, levels)?;
    let values = count(out, side, line, operands, base)?;
    let position = next_number(values.behind.position);
    out.hold(Instr::Put {
        side,
        entry,
        subscript: values.first,
        value: values.second,
        position,
    })
}

/// A print.
pub fn print(out: &mut Emitter, line: u32, value: &Expression, free: u16) -> Result<(), AllocError>
    requires room { IsRoomFor (formula_of value.now) free }
    ensures { OnOk result (out.new ≡ wrote (shapes.prints true out.old.held line free (formula_of value.now))
        (shapes.still out.old.held (formula_of value.now)) out.old) }
{
    let values = count(out, Side::Uniform, line, Operands::Value(value), free)?;
    out.push(Instr::Print {
        source: values.first,
    })
}

/// An assignment outside pardo.
pub fn assign(
    out: &mut Emitter,
    line: u32,
    target: &Target,
    value: &Expression,
    free: u16,
) -> Result<(), AllocError>
    requires room { IsAssignRoom target.now (formula_of value.now) free }
    ensures { OnOk result (out.new ≡ wrote (outside.assign true out.old.held line free target.now (formula_of value.now))
        (outside.assign_left out.old.held target.now (formula_of value.now)) out.old) }
{
    match target {
        Target::Uniform(number) => {
            let destination = variable(*number);
            get(out, Side::Uniform, line, value, free, destination)
        }
        Target::Cell(entry) => write(
            out,
            Side::Uniform,
            line,
            *entry,
            Operands::ForCell(value),
            free,
        ),
        Target::Element(entry, subscript) => write(
            out,
            Side::Uniform,
            line,
            *entry,
            Operands::Both(subscript, value),
            free,
        ),
    }
}

/// An assignment inside pardo.
pub fn step_assign(
    out: &mut Emitter,
    line: u32,
    target: &StepTarget,
    value: &Expression,
    base: u16,
) -> Result<(), AllocError>
    requires room { IsInnerAssignRoom target.now (formula_of value.now) base }
    // Whichever register votes are in.
    ensures { (vote : ℕ) → OnOk result (out.new ≡ wrote
        (inside.inner_assign (record { keep = true; vote = vote }) out.old.held line base target.now (formula_of value.now))
        (inside.inner_assign_left out.old.held target.now (formula_of value.now)) out.old) }
{
    match target {
        StepTarget::Local(number) => {
            let destination = local(*number);
            get(out, Side::Private, line, value, base, destination)
        }
        StepTarget::Cell(entry) => write(
            out,
            Side::Private,
            line,
            *entry,
            Operands::ForCell(value),
            base,
        ),
        StepTarget::Element(entry, subscript) => write(
            out,
            Side::Private,
            line,
            *entry,
            Operands::Both(subscript, value),
            base,
        ),
    }
}
