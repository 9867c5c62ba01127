//! The inputs of files.

ghost use Rattle.std.specs.Prelude.{IfOk, IfErr, map};
ghost use Rattle.std.specs.List.{AllZip};
ghost use Rattle.system_files.specs.Files.{IsSame};
ghost use Rattle.comparing.specs.Found.{values_of};
ghost use Rattle.command_pairs.specs.Pairs as spec;

use command_facts::load_input;
use command_requests::InputFile;
use diagnoses::Halted;
use program_texts::{Refusal, Stop};
use std::alloc::Global;
use system_files::Sources;

/// The inputs of some files, in their order.
pub(crate) fn load_inputs<'a, S: Sources>(
    alloc: Global,
    files: &[InputFile<'a>],
    sources: &mut S,
) -> Result<Vec<Vec<i64>>, Halted<'a>>
    ensures held { IfOk result (λ inputs. AllZip (spec.IsInputOfFile (S.Sources.holds sources.old)) files.now
        (map values_of inputs.items)) }
    ensures refused { IfErr result (spec.StopsAtInputs (S.Sources.holds sources.old) files.now) }
    ensures same { IsSame (S.Sources.holds sources.new) (S.Sources.holds sources.old) }
{
    let mut inputs = Vec::new(alloc);
    for file in files {
        let input = load_input(alloc, sources, file.name)?;
        let Ok(()) = inputs.push(input) else {
            return Err(Halted::from(Stop::Refused(Refusal::OutOfMemory)));
        };
    }
    Ok(inputs)
}
