//! What there is to know of all instructions of code: who is jumped to, and which registers loops take over.

ghost use Rattle.std.specs.Prelude.{◌≡◌, ◌<◌, ◌≤◌, ◌^◌, ◌||◌, ◌&&◌, not, ℕ, IfOk, length, take, replicate, false};
ghost use Rattle.std.specs.List.{list_any};
ghost use Rattle.mpi_export.specs.Loops as spec;
ghost use Rattle.mpi_export.specs.Parts.{parts_of};
ghost use Rattle.mpi_export.specs.Prepared.{flag_of};

use crate::loops::{Loop, is_in, result_of};
use crate::parts::{Part, parts};
use std::alloc::{AllocError, Global};
use superstep_instructions::{Code, Instr};

// How many instructions and registers have a number of 16 bits.
const NUMBERS: usize = 65_536;

// So many flags, of which none is set.
fn blank(alloc: Global, count: usize) -> Result<Vec<bool>, AllocError>
    ensures { IfOk result (λ flags. flags.items ≡ replicate count false) }
{
    vec![in alloc; false; count]
}

// A flag for each number of 16 bits, of which none is set.
fn no_flags(alloc: Global) -> Result<Vec<bool>, AllocError>
    ensures long { IfOk result (λ flags. length flags.items ≡ 2 ^ 16) }
    ensures unset { IfOk result (λ flags. (k : ℕ) → flag_of flags.items k ≡ false) }
{
    let flags = blank(alloc, NUMBERS)?;
    Ok(flags)
}

// Where an instruction jumps to.
fn target_of(instr: Instr) -> Option<u16>
    ensures { result ≡ spec.target_of instr }
{
    match instr {
        Instr::Jump { target } => Some(target),
        Instr::JumpIfZero { target, .. } => Some(target),
        _ => None,
    }
}

/// A flag for each place, set where an instruction jumps to it.
pub(crate) fn targets(alloc: Global, instructions: &[Instr]) -> Result<Vec<bool>, AllocError>
    ensures long { IfOk result (λ flags. length flags.items ≡ 2 ^ 16) }
    ensures flags { IfOk result (λ flags. (t : ℕ) → flag_of flags.items t ≡ list_any (spec.jumps_to t) instructions.now) }
{
    let mut flags = no_flags(alloc)?;
    for instr in instructions {
        if let Some(target) = target_of(*instr) {
            flags[target as usize] = true;
        }
    }
    Ok(flags)
}

// Sets the flags of registers that are read and not set.
fn note_reads(flags: &mut [bool], parts: &[Part], set: &[u16])
    requires { length flags.old ≡ 2 ^ 16 }
    ensures long { length flags.new ≡ 2 ^ 16 }
    ensures noted { (r : ℕ) → flag_of flags.new r ≡ (flag_of flags.old r || (spec.reads r parts.now && not (spec.is_in r set.now))) }
{
    for part in parts {
        if let Part::OfEach(register) = *part {
            if !is_in(register, set) {
                flags[register as usize] = true;
            }
        }
    }
}

/// A flag for each register of which a loop takes over what one before it left.
pub(crate) fn columns(alloc: Global, code: &Code, targets: &[bool]) -> Result<Vec<bool>, AllocError>
    requires long { length targets.now ≡ 2 ^ 16 }
    requires flags { (t : ℕ) → flag_of targets.now t ≡ spec.is_target code.now t }
    ensures { IfOk result (λ flags. (r : ℕ) → flag_of flags.items r ≡ spec.is_taken_over code.now r) }
{
    let mut flags = no_flags(alloc)?;
    let instructions = code.instructions();
    let mut here = Loop::none(alloc, instructions.len())?;
    for at in 0..instructions.len() {
        let instr = instructions[at];
        here.begin(targets[at], instr);
        let (operands, count) = parts(instr);
        note_reads(&mut flags, &operands[..count], &here.set[..here.count]);
        here.pass(code.rule(), instr);
    }
    Ok(flags)
}

// Whether an instruction gives register 1 the processor's index.
fn gives_index(instr: Instr) -> bool
    ensures { result ≡ spec.gives_index instr }
{
    match instr {
        Instr::Index { destination } => destination == 1,
        _ => false,
    }
}

// Whether it is register 1.
fn is_one(register: Option<u16>) -> bool
    ensures { result ≡ spec.is_one register }
{
    match register {
        Some(register) => register == 1,
        None => false,
    }
}

fn is_enter(instr: Instr) -> bool
    ensures { result ≡ spec.is_enter instr }
{
    matches!(instr, Instr::Enter { .. })
}

/// Whether register 1 is the processor's index from each `enter` on.
pub(crate) fn keeps_index(instructions: &[Instr]) -> bool
    ensures { result ≡ spec.keeps_index false instructions.now }
{
    let mut entered = false;
    for instr in instructions {
        if !gives_index(*instr) && (entered || is_one(result_of(*instr))) {
            return false;
        }
        entered = is_enter(*instr);
    }
    !entered
}
