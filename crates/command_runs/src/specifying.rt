//! The programs by which inputs count and results are right.

ghost use Rattle.std.specs.Prelude.{IfOk, IfErr};
ghost use Rattle.system_files.specs.Files.{IsSame};
ghost use Rattle.command_runs.specs.Specified as spec;

use crate::unlike::check_alike;
use command_facts::{load_program, load_where_named};
use command_requests::{ProgramFile, SpecificationFiles};
use diagnoses::Halted;
use pram_check::Program;
use scopes::Specification;
use std::alloc::Global;
use system_files::Sources;

// The program of a postcondition's file, which declares nothing with other bounds than the program of this name.
fn load_alike<'a, S: Sources>(
    alloc: Global,
    name: &str,
    program: &Program,
    file: &ProgramFile<'a>,
    sources: &mut S,
) -> Result<Program, Halted<'a>>
    ensures loaded { IfOk result (λ q. spec.IsAlikeIn (S.Sources.holds sources.old) program.now.layout file.now q) }
    ensures refused { IfErr result (spec.StopsAtAlike (S.Sources.holds sources.old) name.now program.now.layout file.now) }
    ensures same { IsSame (S.Sources.holds sources.new) (S.Sources.holds sources.old) }
{
    let loaded = load_program(alloc, sources, file)?;
    match check_alike(alloc, name, program, file.name, &loaded.program) {
        Ok(()) => Ok(loaded.program),
        Err(halted) => Err(halted),
    }
}

// The same, where a file is named.
fn load_postcondition<'a, S: Sources>(
    alloc: Global,
    name: &str,
    program: &Program,
    file: &Option<ProgramFile<'a>>,
    sources: &mut S,
) -> Result<Option<Program>, Halted<'a>>
    ensures loaded { IfOk result (spec.IsPostcondition (S.Sources.holds sources.old) program.now.layout file.now) }
    ensures refused { IfErr result (spec.StopsAtPostcondition (S.Sources.holds sources.old) name.now program.now.layout file.now) }
    ensures same { IsSame (S.Sources.holds sources.new) (S.Sources.holds sources.old) }
{
    match file {
        None => Ok(None),
        Some(file) => {
            let postcondition = load_alike(alloc, name, program, file, sources)?;
            Ok(Some(postcondition))
        }
    }
}

/// The programs of the files that are named, for a program of this name. Both are refused as [`load_program`] refuses a file, and a
/// postcondition that declares something with other bounds than the program (P1).
pub(crate) fn load_specification<'a, S: Sources>(
    alloc: Global,
    name: &str,
    program: &Program,
    files: &SpecificationFiles<'a>,
    sources: &mut S,
) -> Result<Specification, Halted<'a>>
    ensures loaded { IfOk result (spec.IsSpecification (S.Sources.holds sources.old) program.now.layout files.now) }
    ensures refused { IfErr result (spec.StopsAtSpecification (S.Sources.holds sources.old) name.now program.now.layout files.now) }
    ensures same { IsSame (S.Sources.holds sources.new) (S.Sources.holds sources.old) }
{
    let precondition = load_where_named(alloc, sources, &files.precondition)?;
    let postcondition = load_postcondition(alloc, name, program, &files.postcondition, sources)?;
    Ok(Specification {
        precondition,
        postcondition,
    })
}
