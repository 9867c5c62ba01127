//! The compiler: parse, check, lower and fuse.

ghost use Rattle.std.specs.Prelude.{◌≡◌, IfOk};
ghost use Rattle.program_texts.specs.Report.{IsNoProgram};
ghost use Rattle.compiled_meaning.specs.Supersteps.{IsFusedForm};
ghost use Rattle.program_runs.specs.Compiled.{IsCodeOf, IsCompiledFrom};

use bsp_verify::Verified;
use fusing::fuse;
use lowering::lower;
use pram_check::Program;
use program_texts::{Refusal, read_program};
use std::alloc::{AllocError, Global};

/// The code of a program: what is left of its plain form without the sends that send nothing. On the
/// workers of every lawful map it comes out as the program does, by at most as many supersteps as
/// the program's bound. E16 where memory was refused.
#[tactic(auto, using(crate::proofs::Meant::means_program))]
pub fn compile_program(alloc: Global, program: &Program) -> Result<Verified, AllocError>
    // The answer is the program's one code: its plain form, fused.
    ensures code { IfOk result (λ code. IsCodeOf program.now code) }
    // On every lawful map the code has the program's outcomes and, unless it faults, supersteps within the program's
    // bound and words within those of its accesses.
    ensures meaning { IfOk result (λ code. IsFusedForm program.now code) }
{
    program.bounded();
    let plain = lower(alloc, program)?;
    match fuse(alloc, plain) {
        Ok(code) => Ok(code),
        Err((refused, _plain)) => Err(refused),
    }
}

/// The code of the program of a text, which on the workers of every lawful map comes out as the
/// program does, for every input and every bound: it ends, faults and goes on where the program does,
/// and nowhere else. It is refused for E1 to E10, and for E16 where memory was refused; so each
/// text of an accepted program is compiled.
pub fn compile(alloc: Global, text: &[u8]) -> Result<Verified, Refusal>
    // The answer is the code of the text's accepted program, with its outcomes by every map and, unless it faults,
    // supersteps and words within the program's bounds.
    ensures code { IfOk result (IsCompiledFrom text.now) }
    // Each refusal of a text says what is wrong with it; refused memory, only that it is neither too long nor has a
    // byte of 128 or more.
    ensures refused { IsNoProgram text.now result }
{
    let program = read_program(alloc, text)?;
    let code = compile_program(alloc, &program)?;
    Ok(code)
}
