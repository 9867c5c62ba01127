//! What an instruction notes and writes for a processor.

ghost use Rattle.std.specs.Prelude.{◌≡◌, ◌<◌};
ghost use Rattle.superstep_machine.specs.Steps as spec;
ghost use Rattle.instruction_steps.specs.Views.{uniform_of};
ghost use Rattle.flat_run.specs.Views.{part_of};

use crate::processor::{ProcessorState, cell_for, is_active};
use instruction_steps::{
    UniformState, computed_on, fault_at, index_of, missing, position_of, register, write_to,
    wrong_in,
};
use pram_values::{Kind, Place};
use superstep_instructions::{Code, Instr, Side};
use superstep_machine::Key;

// What is wrong in an instruction on a processor that is active.
fn wrong_own(code: &Code, instr: Instr, x: &ProcessorState) -> Option<Kind>
    ensures { result ≡ spec.wrong_own code.now instr (part_of x.now) }
{
    match instr {
        Instr::Ask {
            side: Side::Private,
            entry,
            subscript,
            ..
        }
        | Instr::Put {
            side: Side::Private,
            entry,
            subscript,
            ..
        } => missing(cell_for(code, entry, subscript, x)),
        _ => wrong_in(computed_on(Side::Private, instr, &x.registers)),
    }
}

/// The key that an instruction notes on the v-th processor.
pub fn own_key(
    code: &Code,
    instr: Instr,
    u: &UniformState,
    v: u32,
    x: &ProcessorState,
) -> Option<Key>
    requires { v < u.now.width }
    ensures { result ≡ spec.own_key code.now instr (uniform_of u.now) v (part_of x.now) }
{
    if is_active(x) {
        fault_at(
            u,
            position_of(instr),
            Place::Processor(index_of(u, v)),
            wrong_own(code, instr, x),
        )
    } else {
        None
    }
}

/// The write of a processor.
pub fn own_write(code: &Code, instr: Instr, x: &ProcessorState) -> Option<(u32, i64)>
    ensures { result ≡ spec.own_write code.now instr (part_of x.now) }
{
    match instr {
        Instr::Put {
            side: Side::Private,
            entry,
            subscript,
            value,
            ..
        } => {
            if is_active(x) {
                write_to(
                    cell_for(code, entry, subscript, x),
                    register(&x.registers, value),
                )
            } else {
                None
            }
        }
        _ => None,
    }
}
