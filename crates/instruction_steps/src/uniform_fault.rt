//! What an instruction notes and writes for the uniform part.

ghost use Rattle.std.specs.Prelude.{◌≡◌};
ghost use Rattle.superstep_machine.specs.Results.{missing as spec_missing, kind_of as spec_kind_of};
ghost use Rattle.superstep_machine.specs.Steps as spec;
ghost use Rattle.instruction_steps.specs.Views.{uniform_of};

use crate::arithmetic::{computed_on, position_of, wrong_in};
use crate::range::range_width;
use crate::registers::register;
use crate::uniform::UniformState;
use pram_values::{Kind, Place};
use superstep_instructions::{Code, Instr, Side};
use superstep_machine::Key;

/// No cell is a fault.
pub fn missing(cell: Option<u32>) -> Option<Kind>
    ensures { result ≡ spec_missing cell }
{
    match cell {
        None => Some(Kind::OutOfRange),
        Some(_) => None,
    }
}

/// The key of a fault of one processor, or of all, where something is wrong.
pub fn fault_at(u: &UniformState, position: u32, place: Place, wrong: Option<Kind>) -> Option<Key>
    ensures { result ≡ spec.fault_at (uniform_of u.now) position place wrong }
{
    match wrong {
        None => None,
        Some(kind) => Some(Key {
            count: u.count,
            position,
            conflict: false,
            place,
            kind,
            line: u.line,
        }),
    }
}

// What is wrong in a range.
fn wrong_range(width: Result<u32, Kind>) -> Option<Kind>
    ensures { result ≡ spec_kind_of width }
{
    match width {
        Ok(_) => None,
        Err(kind) => Some(kind),
    }
}

// What is wrong in an instruction on the uniform part.
fn wrong_uniform(code: &Code, instr: Instr, u: &UniformState) -> Option<Kind>
    ensures { result ≡ spec.wrong_uniform code.now instr (uniform_of u.now) }
{
    match instr {
        Instr::Enter { low, high, .. } => wrong_range(range_width(
            code.procs(),
            register(&u.registers, low),
            register(&u.registers, high),
        )),
        Instr::Ask {
            side: Side::Uniform,
            entry,
            subscript,
            ..
        }
        | Instr::Put {
            side: Side::Uniform,
            entry,
            subscript,
            ..
        } => missing(
            code.layout()
                .cell(entry as usize, register(&u.registers, subscript)),
        ),
        _ => wrong_in(computed_on(Side::Uniform, instr, &u.registers)),
    }
}

/// The key that an instruction notes on the uniform part.
pub fn uniform_key(code: &Code, instr: Instr, u: &UniformState) -> Option<Key>
    // The key is the one that the machine's definition notes for the instruction on the uniform part, if any.
    ensures { result ≡ spec.uniform_key code.now instr (uniform_of u.now) }
{
    fault_at(
        u,
        position_of(instr),
        Place::All,
        wrong_uniform(code, instr, u),
    )
}

/// A write of a value to a cell, where there is one.
pub fn write_to(cell: Option<u32>, value: i64) -> Option<(u32, i64)>
    ensures { result ≡ spec.write_to cell value }
{
    match cell {
        None => None,
        Some(cell) => Some((cell, value)),
    }
}

/// The write of the uniform part.
pub fn uniform_write(code: &Code, instr: Instr, u: &UniformState) -> Option<(u32, i64)>
    // The cell and the value are those of the uniform part's write by the machine's definition, if any.
    ensures { result ≡ spec.uniform_write code.now instr (uniform_of u.now) }
{
    match instr {
        Instr::Put {
            side: Side::Uniform,
            entry,
            subscript,
            value,
            ..
        } => write_to(
            code.layout()
                .cell(entry as usize, register(&u.registers, subscript)),
            register(&u.registers, value),
        ),
        _ => None,
    }
}
