//! The code of an accepted program.

ghost use Rattle.std.specs.Prelude.{◌≡◌, IfOk, true};
ghost use Rattle.bsp_verify.specs.WellFormed.{IsWellFormed};
ghost use Rattle.pram_check.specs.Bounded.{IsBounded};
ghost use Rattle.pram_check.specs.Checked.{IsResolved};
ghost use Rattle.plain_form.specs.PlainForm.{form_of, instructions_of};

use crate::finish::{all_fit, registers};
use crate::outside::statement;
use bsp_verify::{Verified, VerifyFault, verify};
use pram_check::Program;
use pram_model::Layout;
use std::alloc::{AllocError, Global};
use straight_lowering::{Emitter, variable};
use superstep_instructions::{Code, Instr, Side};

// The instructions of a program.
fn instructions(alloc: Global, program: &Program) -> Result<Vec<Instr>, AllocError>
    requires bounded { IsBounded program.now }
    requires resolved { IsResolved program.now }
    ensures { IfOk result (λ is. is.items ≡ instructions_of true program.now) }
{
    let free = variable(program.uniforms());
    let mut out = Emitter::new(alloc);
    for s in program.body() {
        statement(&mut out, s, free)?;
    }
    out.push(Instr::Halt)?;
    Ok(out.instructions())
}

// The code with these declarations and instructions, which are the program's.
fn code(program: &Program, layout: Layout, instructions: Vec<Instr>) -> Code
    requires bounded { IsBounded program.now }
    requires resolved { IsResolved program.now }
    requires layout { layout ≡ program.now.layout }
    requires instructions { instructions.items ≡ instructions_of true program.now }
    ensures { result ≡ form_of true program.now }
{
    let all: &[Instr] = &instructions;
    all_fit(all);
    let uniform = registers(Side::Uniform, all);
    let private = registers(Side::Private, all);
    Code::of(
        program.rule(),
        program.procs(),
        layout,
        uniform,
        private,
        instructions,
    )
}

// Code that is well formed, as verified.
fn verified(alloc: Global, code: Code) -> Result<Verified, AllocError>
    requires { IsWellFormed code }
    ensures { IfOk result (λ verified. verified ≡ code) }
{
    match verify(alloc, code) {
        Ok(verified) => Ok(verified),
        Err((VerifyFault::OutOfMemory, _)) => Err(AllocError),
        Err((VerifyFault::NotVerified { .. }, _)) => unreachable!(),
    }
}

/// The code of an accepted program, instruction for instruction: with a send behind each mark where
/// no write is held. It is well formed. It fails for want of memory alone: each register, position
/// and target of a jump has a number in a listing.
pub fn lower(alloc: Global, program: &Program) -> Result<Verified, AllocError>
    // The code is the one defined for the program, instruction for instruction, with its rule, processors and
    // declarations.
    ensures form { IfOk result (λ code. code ≡ form_of true program.now) }
{
    program.bounded();
    let _tree = program.tree();
    let instructions = instructions(alloc, program)?;
    let layout = program.layout().copied(alloc)?;
    verified(alloc, code(program, layout, instructions))
}
