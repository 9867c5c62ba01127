//! Runs that are to be told statement by statement.

ghost use Rattle.std.specs.Prelude.{IfOk, IfErr};
ghost use Rattle.command_runs.specs.Refused.{NamesForeign, RefusesMeaning};
ghost use Rattle.command_runs.specs.Runs.{IsStepsFound};

use crate::given::load_told;
use command_facts::{FoundSteps, Limit, halted_run};
use command_requests::{MeaningWords, ProgramFile, StepWords};
use diagnoses::Halted;
use program_texts::Refusal;
use std::alloc::Global;
use system_files::Sources;

/// A run of the file's program that is still to be told: it is judged, and who tells it runs it. It is refused as
/// [`find_meaning`](crate::find_meaning) is.
pub fn find_steps<'a, S: Sources>(
    alloc: Global,
    file: &ProgramFile<'a>,
    words: MeaningWords<'a>,
    steps: StepWords<'a>,
    sources: &mut S,
) -> Result<FoundSteps<'a>, Halted<'a>>
    // It is to be run on what the words give, in the time that they give, and told as they say, and the program has what they name.
    ensures found { IfOk result (IsStepsFound (S.Sources.holds sources.old) file.now words.entry steps.entry) }
    // None is found only for the program's file, a name, what the cells hold, or an input with too many values.
    ensures refused { IfErr result (RefusesMeaning (S.Sources.holds sources.old) file.now words.entry.opening
        (NamesForeign steps.entry)) }
{
    let (loaded, input) = load_told(alloc, file, words.opening, steps, sources)?;
    let cells = loaded.program.layout().cells();
    if input.len() > cells as usize {
        return Err(halted_run(Refusal::InputTooLong, &input, cells));
    }
    let limit = Limit {
        bound: words.bound,
        seconds: words.seconds,
    };
    Ok(FoundSteps {
        loaded,
        input,
        limit,
        words: steps,
    })
}
