//! Tidying: the same code with fewer instructions that set registers.

ghost use Rattle.std.specs.Prelude.{◌≡◌, ◌≤◌, IfOk, IfSome, true};
ghost use Rattle.superstep_instructions.specs.Limits.{most_registers};
ghost use Rattle.tidying.specs.Certificates.{IsLike};
ghost use Rattle.tidying.specs.Tidied.{IsShortened, IsTidied, RunsAlike};

use crate::altering::{alterations_without, first_alterations};
use crate::building::rebuilt;
use crate::certificate::{Certificate, Constants};
use crate::certified::is_certified;
use crate::change::changed;
use crate::flowing::{Alterations, Flow, Widths, flag, followed};
use crate::numbers::{constants_of, with_numbers};
use bsp_verify::{Verified, VerifyFault, verify};
use std::alloc::{AllocError, Global};
use superstep_instructions::{Code, Instr};

// No more than this is noted of all places of code together.
const MOST_NOTED: u64 = 262144;

// How much is noted of code of that length.
fn noted(length: usize, widths: Widths) -> u64 {
    let registers = (widths.uniform as u64).saturating_add(
        (widths.private as u64).saturating_mul(2),
    );
    (length as u64).saturating_mul(registers)
}

// How many alterations may be tried in code of that length: 64, or less where much is noted of it.
fn tries_of(length: usize, widths: Widths) -> u32 {
    if noted(length, widths) > 65536 { 4 } else { 64 }
}

// Where each place goes, and the end.
fn places_after(
    alloc: Global,
    instructions: &[Instr],
    alterations: &Alterations,
) -> Result<Vec<u16>, AllocError> {
    let mut places = Vec::new(alloc);
    let mut next: u64 = 0;
    for at in 0..instructions.len() {
        places.push(if next < 65536 { next as u16 } else { 0 })?;
        if !flag(&alterations.without, at) {
            next = next.saturating_add(1);
        }
    }
    places.push(if next < 65536 { next as u16 } else { 0 })?;
    Ok(places)
}

// The instructions that are left, changed.
fn those_left(
    alloc: Global,
    instructions: &[Instr],
    alterations: &Alterations,
    flow: &Flow,
    moved: &[u16],
) -> Result<Vec<Instr>, AllocError> {
    let mut left = Vec::new(alloc);
    for at in 0..instructions.len() {
        if flag(&alterations.without, at) {
            continue;
        }
        if let (Some(known), Some(into)) = (flow.known.get(at), alterations.into.get(at).copied()) {
            let instr = instructions[at];
            left.push(changed(&known.uniform, &known.active, into, moved, instr))?;
        }
    }
    Ok(left)
}

// The code that is left where code is altered so, if the check finds it right; `none` are no constants.
fn altered(
    alloc: Global,
    code: &Code,
    constants: Constants,
    alterations: Alterations,
    flow: Flow,
) -> Result<Option<Code>, AllocError>
    ensures { IfOk result (λ found. IfSome found (IsShortened code.now)) }
{
    let instructions = code.instructions();
    let moved = places_after(alloc, instructions, &alterations)?;
    let left = those_left(alloc, instructions, &alterations, &flow, &moved)?;
    if left.len() > 65536 {
        return Ok(None);
    }
    let uniform = code.uniform_registers();
    let private = code.private_registers();
    let short = rebuilt(alloc, code, uniform, private, &left)?;
    let certificate = Certificate {
        known: flow.known,
        constants,
        into: alterations.into,
        moved,
    };
    if is_certified(&certificate, code, &short) {
        Ok(Some(short))
    } else {
        Ok(None)
    }
}

// Verified code, if the code can be verified.
fn verified(alloc: Global, code: Code) -> Result<Option<Verified>, AllocError>
    ensures { IfOk result (λ found. IfSome found (λ other. other ≡ code)) }
{
    match verify(alloc, code) {
        Ok(verified) => Ok(Some(verified)),
        Err((VerifyFault::OutOfMemory, _)) => Err(AllocError),
        Err((VerifyFault::NotVerified { .. }, _)) => Ok(None),
    }
}

// Whether the code is what is left of the whole code without its constants.
fn is_left(
    alloc: Global,
    whole: &Code,
    code: &Code,
    constants: &Constants,
) -> Result<bool, AllocError>
    requires { IsLike whole.now code.now }
    ensures { IfOk result (λ right. right ≡ true → IsShortened whole.now code.now) }
{
    let instructions = whole.instructions();
    let none = Constants {
        first_uniform: 0,
        uniform: Vec::new(alloc),
        first_private: 0,
        private: Vec::new(alloc),
    };
    let widths = Widths {
        uniform: code.uniform_registers(),
        private: code.private_registers(),
    };
    let alterations = alterations_without(alloc, instructions, constants)?;
    let flow = followed(alloc, instructions, widths, &none, &alterations)?;
    let moved = places_after(alloc, instructions, &alterations)?;
    let certificate = Certificate {
        known: flow.known,
        constants: none,
        into: alterations.into,
        moved,
    };
    Ok(is_certified(&certificate, whole, code))
}

// Alters instructions again that were restored, one at a time, where nothing is missing then; at most so many as may be tried.
fn alter_again(
    alloc: Global,
    instructions: &[Instr],
    widths: Widths,
    constants: &Constants,
    alterations: &mut Alterations,
) -> Result<(), AllocError> {
    let first = first_alterations(alloc, instructions, constants)?;
    let mut tries = tries_of(instructions.len(), widths);
    for at in 0..instructions.len() {
        if tries == 0 {
            break;
        }
        if alterations.alter(instructions, &first, at) {
            tries -= 1;
            let flow = followed(alloc, instructions, widths, constants, alterations)?;
            if alterations.is_missing_any(instructions, &flow) {
                alterations.undo(instructions, at);
            }
        }
    }
    Ok(())
}

// How the whole code is altered, and what is known then.
fn alterations_of(
    alloc: Global,
    instructions: &[Instr],
    widths: Widths,
    constants: &Constants,
) -> Result<(Alterations, Flow), AllocError> {
    let mut alterations = first_alterations(alloc, instructions, constants)?;
    let mut flow = followed(alloc, instructions, widths, constants, &alterations)?;
    for _ in 0..16 {
        if !alterations.mend_all(instructions, &flow) {
            break;
        }
        flow = followed(alloc, instructions, widths, constants, &alterations)?;
    }
    alter_again(alloc, instructions, widths, constants, &mut alterations)?;
    alterations.leave_unused(instructions, constants, true);
    let last = followed(alloc, instructions, widths, constants, &alterations)?;
    if !alterations.is_missing_any(instructions, &last) {
        return Ok((alterations, last));
    }
    alterations.leave_unused(instructions, constants, false);
    let last = followed(alloc, instructions, widths, constants, &alterations)?;
    Ok((alterations, last))
}

// The code that is left of the whole code, if there is any.
fn shortened(
    alloc: Global,
    whole: &Code,
    widths: Widths,
    constants: Constants,
) -> Result<Option<Verified>, AllocError>
    ensures { IfOk result (λ found. IfSome found (IsShortened whole.now)) }
{
    let instructions = whole.instructions();
    let (alterations, flow) = alterations_of(alloc, instructions, widths, &constants)?;
    if !alterations.leaves_any(instructions, &constants) {
        return Ok(None);
    }
    match altered(alloc, whole, constants, alterations, flow)? {
        Some(code) => verified(alloc, code),
        None => Ok(None),
    }
}

// How many registers there are with those of the constants, if there may be so many.
fn widths_of(constants: &Constants) -> Option<Widths>
    ensures { IfSome result (λ widths. (widths.uniform ≤ most_registers) × (widths.private ≤ most_registers)) }
{
    let uniform = (constants.first_uniform as usize).saturating_add(constants.uniform.len());
    let private = (constants.first_private as usize).saturating_add(constants.private.len());
    if uniform > 65536 || private > 65536 {
        return None;
    }
    Some(Widths {
        uniform: uniform as u32,
        private: private as u32,
    })
}

// Whether so much may be noted of code of that length.
fn is_small(length: usize, widths: Widths) -> bool {
    noted(length, widths) <= MOST_NOTED
}

// The code with its numbers set in registers of their own, if there is such code.
fn whole_of(
    alloc: Global,
    code: &Code,
    widths: Widths,
    constants: &Constants,
) -> Result<Option<Verified>, AllocError>
    requires uniform { widths.uniform ≤ most_registers }
    requires private { widths.private ≤ most_registers }
    ensures { IfOk result (λ found. IfSome found (IsLike code.now)) }
{
    let instructions = with_numbers(alloc, code, constants)?;
    if instructions.len() > 65536 || !is_small(instructions.len(), widths) {
        return Ok(None);
    }
    let whole = rebuilt(alloc, code, widths.uniform, widths.private, &instructions)?;
    verified(alloc, whole)
}

/// The same code with fewer instructions that set registers, if such code is found. A number that a register is set to, only to be
/// read, is set once in a register of its own: a uniform one at the beginning, a private one where a range of processors begins, where no
/// mask stands. And what is computed only to be copied is computed where the copy goes. For each place it's noted where each register
/// lies, in up to 262,144 notes in all: there is no answer for code with more. The error comes where memory was refused.
pub fn tidy(alloc: Global, code: &Verified) -> Result<Option<Verified>, AllocError>
    // Both the code and the answer are what is left of one code without some instructions that set registers; each reads
    // registers that hold the same.
    ensures tidied { IfOk result (λ found. IfSome found (IsTidied code.now)) }
    // The answer has the code's outcomes on every map and within every bound, by as many exchanges for the same,
    // and its workers have printed as much before each.
    ensures alike { IfOk result (λ found. IfSome found (RunsAlike code.now)) }
{
    let plain = code.code();
    let constants = constants_of(alloc, plain)?;
    let Some(widths) = widths_of(&constants) else {
        return Ok(None);
    };
    let Some(whole) = whole_of(alloc, plain, widths, &constants)? else {
        return Ok(None);
    };
    let whole_code = whole.code();
    if !is_left(alloc, whole_code, plain, &constants)? {
        return Ok(None);
    }
    match shortened(alloc, whole_code, widths, constants)? {
        Some(tidied) => {
            let _instructions = tidied.code();
            Ok(Some(tidied))
        }
        None => Ok(None),
    }
}
