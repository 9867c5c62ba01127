//! The code of a program from its instructions.

ghost use Rattle.std.specs.Prelude.{◌≡◌, ◌≤◌, ◌∷◌, [], max};
ghost use Rattle.std.specs.List.{AllByRecursion};
ghost use Rattle.superstep_instructions.specs.Limits.{IsInstr, most_registers};
ghost use Rattle.plain_form.specs.Registers as spec;

use superstep_instructions::{Instr, Side};

// One more than a register, if it is of that side.
fn behind(side: Side, on: Side, register: u16) -> u32
    ensures count { result ≡ spec.behind_all (spec.if_on side on (register ∷ [])) }
    ensures few { result ≤ most_registers }
{
    if side == on { register as u32 + 1 } else { 0 }
}

fn greater(a: u32, b: u32) -> u32
    ensures { result ≡ max a b }
{
    if a < b { b } else { a }
}

// One more than the greater of two registers, if they are of that side.
fn behind_both(side: Side, on: Side, first: u16, second: u16) -> u32
    ensures count { result ≡ spec.behind_all (spec.if_on side on (first ∷ second ∷ [])) }
    ensures few { result ≤ most_registers }
{
    greater(behind(side, on, first), behind(side, on, second))
}

// One more than the greatest of three.
fn behind_three(side: Side, on: Side, first: u16, second: u16, third: u16) -> u32
    ensures count { result ≡ spec.behind_all (spec.if_on side on (first ∷ second ∷ third ∷ [])) }
    ensures few { result ≤ most_registers }
{
    greater(
        behind(side, on, first),
        behind_both(side, on, second, third),
    )
}

// One more than the greatest register of a side that an instruction names.
fn registers_of(side: Side, instr: Instr) -> u32
    ensures count { result ≡ spec.behind_all (spec.named side instr) }
    ensures few { result ≤ most_registers }
{
    match instr {
        Instr::Set {
            side: on,
            destination,
            ..
        } => behind(side, on, destination),
        Instr::Copy {
            side: on,
            destination,
            source,
        }
        | Instr::Not {
            side: on,
            destination,
            source,
        }
        | Instr::Negate {
            side: on,
            destination,
            source,
            ..
        } => behind_both(side, on, destination, source),
        Instr::Calculate {
            side: on,
            destination,
            left,
            right,
            ..
        }
        | Instr::Decide {
            side: on,
            destination,
            left,
            right,
            ..
        } => behind_three(side, on, destination, left, right),
        Instr::CopyUniform {
            destination,
            source,
        } => match side {
            Side::Private => destination as u32 + 1,
            Side::Uniform => source as u32 + 1,
        },
        Instr::Index { destination } => behind(side, Side::Private, destination),
        Instr::Enter { low, high, .. } => behind_both(side, Side::Uniform, low, high),
        Instr::Mask { source } => behind(side, Side::Private, source),
        Instr::Ask {
            side: on,
            destination,
            subscript,
            ..
        } => behind_both(side, on, destination, subscript),
        Instr::Put {
            side: on,
            subscript,
            value,
            ..
        } => behind_both(side, on, subscript, value),
        Instr::Vote { destination } => behind(side, Side::Uniform, destination),
        Instr::Print { source } => behind(side, Side::Uniform, source),
        Instr::JumpIfZero { source, .. } => behind(side, Side::Uniform, source),
        Instr::Mark { .. }
        | Instr::Leave
        | Instr::Flip
        | Instr::Unmask
        | Instr::Send
        | Instr::Reply
        | Instr::Jump { .. }
        | Instr::Halt => 0,
    }
}

/// How many registers of a side some instructions name.
pub(crate) fn registers(side: Side, instructions: &[Instr]) -> u32
    ensures count { result ≡ spec.registers side instructions.now }
    ensures few { result ≤ most_registers }
{
    let mut most = 0;
    for instr in instructions {
        most = greater(most, registers_of(side, *instr));
    }
    most
}

/// The operands of every instruction have as many bits as a listing gives them.
pub(crate) fn all_fit(instructions: &[Instr])
    ensures { AllByRecursion IsInstr instructions.now }
{
    for instr in instructions {
        instr.operands_fit();
    }
}
