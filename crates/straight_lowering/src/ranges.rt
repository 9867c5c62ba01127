//! Bounds: of a `for` and a pardo, and the settings of a `for`.

ghost use Rattle.std.specs.Prelude.{◌≡◌, ◌+◌, ◌<◌, ◌^◌, OnOk, true, false};
ghost use Rattle.plain_form.specs.Formulas.{formula_of};
ghost use Rattle.plain_form.specs.Formulas as formulas;
ghost use Rattle.plain_form.specs.Registers as registers;
ghost use Rattle.plain_form.specs.Shapes as shapes;
ghost use Rattle.straight_lowering.specs.Room.{IsRoomFor};
ghost use Rattle.straight_lowering.specs.Straight as straight;
ghost use Rattle.straight_lowering.specs.Written.{wrote};

use crate::cursor::{next_number, next_register};
use crate::emitter::Emitter;
use crate::region::{INDEX, variable};
use crate::values::{Operands, count};
use pram_check::Expression;
use std::alloc::AllocError;
use superstep_instructions::{Arithmetic, Instr, Side, Truth};

/// The uniform registers of an open `for`.
#[derive(Clone, Copy)]
pub struct Turns {
    pub turn: u16,
    pub high: u16,
    pub more: u16,
    pub behind: u16,
}

/// Those from the first that is free on.
pub fn turns_from(free: u16) -> Turns
    requires { free + 3 < 2 ^ 16 }
    ensures { result ≡ record {
      turn = registers.turn free;
      high = registers.high free;
      more = registers.more free;
      behind = registers.behind_turns free;
    } }
{
    let high = next_register(free);
    let more = next_register(high);
    let behind = next_register(more);
    Turns {
        turn: free,
        high,
        more,
        behind,
    }
}

/// The bounds of a `for`, and whether there is a first turn.
pub fn bounds(
    out: &mut Emitter,
    line: u32,
    low: &Expression,
    high: &Expression,
    turns: Turns,
) -> Result<(), AllocError>
    requires room { IsRoomFor (formulas.Pair (formula_of low.now) (formula_of high.now)) turns.behind }
    ensures { OnOk result (out.new ≡ wrote
        (straight.bounds out.old.held line turns (formula_of low.now) (formula_of high.now)) false out.old) }
{
    let values = count(
        out,
        Side::Uniform,
        line,
        Operands::Both(low, high),
        turns.behind,
    )?;
    out.push(Instr::Copy {
        side: Side::Uniform,
        destination: turns.turn,
        source: values.first,
    })?;
    out.push(Instr::Copy {
        side: Side::Uniform,
        destination: turns.high,
        source: values.second,
    })?;
    out.flush()?;
    out.push(Instr::Decide {
        side: Side::Uniform,
        operation: Truth::AtMost,
        destination: turns.more,
        left: turns.turn,
        right: turns.high,
    })
}

/// A setting of the variable of a `for`.
pub fn setting(out: &mut Emitter, line: u32, number: usize, turns: Turns) -> Result<(), AllocError>
    requires { number + 1 < 2 ^ 16 }
    ensures { OnOk result (out.new ≡ wrote (straight.setting out.old.held line turns number) out.old.held out.old) }
{
    let destination = variable(number);
    out.mark(line)?;
    out.push(Instr::Copy {
        side: Side::Uniform,
        destination,
        source: turns.turn,
    })?;
    out.push(Instr::Decide {
        side: Side::Uniform,
        operation: Truth::Less,
        destination: turns.more,
        left: turns.turn,
        right: turns.high,
    })?;
    out.push(Instr::Calculate {
        side: Side::Uniform,
        operation: Arithmetic::Add,
        destination: turns.turn,
        left: turns.turn,
        right: turns.more,
        position: 0,
    })
}

/// The beginning of a pardo.
pub fn entered(
    out: &mut Emitter,
    line: u32,
    low: &Expression,
    high: &Expression,
    free: u16,
) -> Result<(), AllocError>
    requires room { IsRoomFor (formulas.Pair (formula_of low.now) (formula_of high.now)) free }
    ensures { OnOk result (out.new ≡ wrote
        (shapes.entered true out.old.held line free (formula_of low.now) (formula_of high.now))
        (shapes.still out.old.held (formulas.Pair (formula_of low.now) (formula_of high.now))) out.old) }
{
    let values = count(out, Side::Uniform, line, Operands::Both(low, high), free)?;
    let position = next_number(values.behind.position);
    out.push(Instr::Enter {
        low: values.first,
        high: values.second,
        position,
    })?;
    out.push(Instr::Index { destination: INDEX })
}
