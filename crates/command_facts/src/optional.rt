//! Programs of files that a call may name.

ghost use Rattle.std.specs.Prelude.{IfOk, IfErr};
ghost use Rattle.system_files.specs.Files.{IsSame};
ghost use Rattle.command_facts.specs.Refused.{IsProgramWhereNamed, StopsWhereNamed};

use crate::loading::load_program;
use command_requests::ProgramFile;
use diagnoses::Halted;
use pram_check::Program;
use std::alloc::Global;
use system_files::Sources;

/// The program of a file, where one is named. It is refused as [`load_program`] refuses it.
pub fn load_where_named<'a, S: Sources>(
    alloc: Global,
    sources: &mut S,
    file: &Option<ProgramFile<'a>>,
) -> Result<Option<Program>, Halted<'a>>
    // It is the program of all that the file of that name holds, and none where none is named.
    ensures loaded { IfOk result (IsProgramWhereNamed (S.Sources.holds sources.old) file.now) }
    // Without it the call stops at that file.
    ensures refused { IfErr result (StopsWhereNamed (S.Sources.holds sources.old) file.now) }
    // All files hold what they held.
    ensures same { IsSame (S.Sources.holds sources.new) (S.Sources.holds sources.old) }
{
    match file {
        None => Ok(None),
        Some(file) => {
            let loaded = load_program(alloc, sources, file)?;
            Ok(Some(loaded.program))
        }
    }
}
