//! The numbers that code sets, and the code that holds them in registers of their own.

use crate::certificate::{Constants, item};
use std::alloc::{AllocError, Global};
use superstep_instructions::{Code, Instr, Side};

// So many numbers of a side get a register at most.
const MOST: usize = 16;

// Whether a number is among those.
pub(crate) fn place_among(numbers: &[i64], number: i64) -> Option<usize> {
    for k in 0..numbers.len() {
        if numbers[k] == number {
            return Some(k);
        }
    }
    None
}

// Whether two sides are one.
pub(crate) fn is_side(one: Side, other: Side) -> bool {
    matches!(
        (one, other),
        (Side::Uniform, Side::Uniform) | (Side::Private, Side::Private)
    )
}

// The first numbers that registers of a side are set to.
fn numbers_set(alloc: Global, instructions: &[Instr], asked: Side) -> Result<Vec<i64>, AllocError> {
    let mut numbers: Vec<i64> = Vec::new(alloc);
    for at in 0..instructions.len() {
        if let Instr::Set { side, value, .. } = instructions[at] {
            if is_side(side, asked)
                && numbers.len() < MOST
                && place_among(&numbers, value).is_none()
            {
                numbers.push(value)?;
            }
        }
    }
    Ok(numbers)
}

/// The numbers that code sets, each for a register behind those of the code, of either side, since a read may be for a register of one side
/// alone that has no number on the other.
pub(crate) fn constants_of(alloc: Global, code: &Code) -> Result<Constants, AllocError> {
    let instructions = code.instructions();
    let uniform = code.uniform_registers();
    let private = code.private_registers();
    let first = if uniform < private { private } else { uniform };
    Ok(Constants {
        first_uniform: first,
        uniform: numbers_set(alloc, instructions, Side::Uniform)?,
        first_private: first,
        private: numbers_set(alloc, instructions, Side::Private)?,
    })
}

// A number of 16 bits, or 0.
pub(crate) fn short(n: u32) -> u16 {
    if n < 65536 { n as u16 } else { 0 }
}

// The instruction with its target moved.
fn retargeted(instr: Instr, places: &[u16]) -> Instr {
    match instr {
        Instr::Jump { target } => Instr::Jump {
            target: item(places, target as usize),
        },
        Instr::JumpIfZero { source, target } => Instr::JumpIfZero {
            source,
            target: item(places, target as usize),
        },
        _ => instr,
    }
}

// Where each place goes, where numbers are set at the beginning and behind each beginning of a range.
fn places_of(
    alloc: Global,
    instructions: &[Instr],
    constants: &Constants,
) -> Result<Vec<u16>, AllocError> {
    let mut places = Vec::new(alloc);
    let mut next = constants.uniform.len() as u64;
    for at in 0..instructions.len() {
        places.push(if next < 65536 { next as u16 } else { 0 })?;
        next = next.saturating_add(1);
        if matches!(instructions[at], Instr::Enter { .. }) {
            next = next.saturating_add(constants.private.len() as u64);
        }
    }
    Ok(places)
}

// Sets registers of a side, from the first on, to these numbers.
fn set_numbers(
    instructions: &mut Vec<Instr>,
    side: Side,
    first: u32,
    numbers: &[i64],
) -> Result<(), AllocError> {
    let mut register = first;
    for k in 0..numbers.len() {
        instructions.push(Instr::Set {
            side,
            destination: short(register),
            value: numbers[k],
        })?;
        register = register.saturating_add(1);
    }
    Ok(())
}

/// The instructions of the code with its numbers set in registers of their own: uniform ones at the beginning, and private ones
/// where a range
/// begins.
pub(crate) fn with_numbers(
    alloc: Global,
    code: &Code,
    constants: &Constants,
) -> Result<Vec<Instr>, AllocError> {
    let instructions = code.instructions();
    let places = places_of(alloc, instructions, constants)?;
    let mut whole = Vec::new(alloc);
    set_numbers(
        &mut whole,
        Side::Uniform,
        constants.first_uniform,
        &constants.uniform,
    )?;
    for at in 0..instructions.len() {
        let instr = instructions[at];
        whole.push(retargeted(instr, &places))?;
        if matches!(instr, Instr::Enter { .. }) {
            set_numbers(
                &mut whole,
                Side::Private,
                constants.first_private,
                &constants.private,
            )?;
        }
    }
    Ok(whole)
}
