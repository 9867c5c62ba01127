//! The code of programs.

ghost use Rattle.std.specs.Prelude.{IfOk, IfErr};
ghost use Rattle.command_runs.specs.Refused.{RefusesCode};
ghost use Rattle.command_runs.specs.Runs.{IsCodeOfFile};

use bsp_verify::Verified;
use command_facts::load_program;
use command_requests::ProgramFile;
use diagnoses::Halted;
use mpi_export::AlonePlan;
use program_runs::compile_program;
use program_texts::Stop;
use std::alloc::Global;
use system_files::Sources;

/// The code of the file's program. It is refused as [`load_program`] refuses the file, and for want of memory (E16).
pub fn find_code<'a, S: Sources>(
    alloc: Global,
    file: &ProgramFile<'a>,
    sources: &mut S,
) -> Result<Verified, Halted<'a>>
    // It is compiled from what all that the file holds comes to by the sizes of the words.
    ensures found { IfOk result (IsCodeOfFile (S.Sources.holds sources.old) file.now) }
    // It isn't found only for the program's file, or for want of memory.
    ensures refused { IfErr result (RefusesCode (S.Sources.holds sources.old) file.now) }
{
    let loaded = load_program(alloc, sources, file)?;
    match compile_program(alloc, &loaded.program) {
        Ok(code) => Ok(code),
        Err(refusal) => Err(Halted::from(Stop::from(refusal))),
    }
}

/// The code of the file's program, ready to be written in C for one memory. It is refused as that is.
pub fn find_plain_c<'a, S: Sources>(
    alloc: Global,
    file: &ProgramFile<'a>,
    sources: &mut S,
) -> Result<AlonePlan, Halted<'a>>
    // It is compiled from what all that the file holds comes to by the sizes of the words.
    ensures found { IfOk result (IsCodeOfFile (S.Sources.holds sources.old) file.now) }
    // It isn't found only for the program's file, or for want of memory.
    ensures refused { IfErr result (RefusesCode (S.Sources.holds sources.old) file.now) }
{
    let code = find_code(alloc, file, sources)?;
    match AlonePlan::new(alloc, code.into_code()) {
        Ok(plan) => Ok(plan),
        Err(refused) => Err(Halted::from(Stop::from(refused))),
    }
}
