//! What a register instruction computes.

ghost use Rattle.std.specs.Prelude.{◌≡◌, None, if◌then◌else◌};
ghost use Rattle.superstep_machine.specs.Results as spec;
ghost use Rattle.superstep_machine.specs.Steps as steps;
ghost use Rattle.instruction_steps.specs.Views.{registers_of};

use crate::registers::register;
use pram_values::{
    Kind, add, divide, is_same, is_true, multiply, negate, remainder, subtract, truth,
};
use superstep_instructions::{Arithmetic, Instr, Side, Truth};

/// What an operation gives.
#[inline(always)]
pub(crate) fn calculated(operation: Arithmetic, x: i64, y: i64) -> Result<i64, Kind>
    ensures { result ≡ spec.calculated operation x y }
{
    match operation {
        Arithmetic::Add => add(x, y),
        Arithmetic::Subtract => subtract(x, y),
        Arithmetic::Multiply => multiply(x, y),
        Arithmetic::Divide => divide(x, y),
        Arithmetic::Remainder => remainder(x, y),
    }
}

/// Whether a comparison or a connective is true.
#[inline(always)]
pub(crate) fn tested(operation: Truth, x: i64, y: i64) -> bool
    ensures { result ≡ spec.tested operation x y }
{
    match operation {
        Truth::Equal => is_same(x, y),
        Truth::Less => x < y,
        Truth::AtMost => x <= y,
        Truth::And => is_true(x) && is_true(y),
        Truth::Or => is_true(x) || is_true(y),
    }
}

/// The register that an instruction sets, and what it gives, where it reads these registers.
pub fn computed(instr: Instr, registers: &[i64]) -> Option<(u16, Result<i64, Kind>)>
    // The register and what it gets, a value or a fault, are those of the machine's definition.
    ensures { result ≡ spec.computed instr (registers_of registers.now) }
{
    match instr {
        Instr::Set {
            side: _,
            destination,
            value,
        } => Some((destination, Ok(value))),
        Instr::Copy {
            side: _,
            destination,
            source,
        } => Some((destination, Ok(register(registers, source)))),
        Instr::Negate {
            side: _,
            destination,
            source,
            position: _,
        } => Some((destination, negate(register(registers, source)))),
        Instr::Calculate {
            side: _,
            operation,
            destination,
            left,
            right,
            position: _,
        } => Some((
            destination,
            calculated(
                operation,
                register(registers, left),
                register(registers, right),
            ),
        )),
        Instr::Decide {
            side: _,
            operation,
            destination,
            left,
            right,
        } => Some((
            destination,
            Ok(truth(tested(
                operation,
                register(registers, left),
                register(registers, right),
            ))),
        )),
        Instr::Not {
            side: _,
            destination,
            source,
        } => Some((
            destination,
            Ok(truth(!is_true(register(registers, source)))),
        )),
        _ => None,
    }
}

/// The side that an instruction is of, where it has one.
pub fn is_of(side: Side, instr: Instr) -> bool
    ensures { result ≡ spec.is_of side instr }
{
    match instr {
        Instr::Set { side: own, .. }
        | Instr::Copy { side: own, .. }
        | Instr::Negate { side: own, .. }
        | Instr::Calculate { side: own, .. }
        | Instr::Decide { side: own, .. }
        | Instr::Not { side: own, .. }
        | Instr::Ask { side: own, .. }
        | Instr::Put { side: own, .. } => own == side,
        _ => false,
    }
}

/// The position of an operation that may fault.
pub fn position_of(instr: Instr) -> u32
    ensures { result ≡ spec.position_of instr }
{
    match instr {
        Instr::Negate { position, .. }
        | Instr::Calculate { position, .. }
        | Instr::Enter { position, .. }
        | Instr::Ask { position, .. }
        | Instr::Put { position, .. } => position,
        _ => 0,
    }
}

/// What is computed on a side: nothing by an instruction of the other one.
pub fn computed_on(side: Side, instr: Instr, registers: &[i64]) -> Option<(u16, Result<i64, Kind>)>
    // An instruction of that side computes what the machine's definition computes of its registers, and one of the
    // other side nothing.
    ensures { result ≡ (if spec.is_of side instr then spec.computed instr (registers_of registers.now) else None) }
{
    if is_of(side, instr) {
        computed(instr, registers)
    } else {
        None
    }
}

/// What is wrong in a result.
pub fn wrong_in(computed: Option<(u16, Result<i64, Kind>)>) -> Option<Kind>
    ensures { result ≡ steps.wrong_in computed }
{
    match computed {
        Some((_, Err(kind))) => Some(kind),
        _ => None,
    }
}
