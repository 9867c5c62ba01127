//! Runs of programs by their definition.

ghost use Rattle.std.specs.Prelude.{◌≡◌, IfOk, IfErr};
ghost use Rattle.system_files.specs.Files.{IsSame};
ghost use Rattle.command_runs.specs.Refused.{NamesNone, NamesUnknown, RefusesMeaning};
ghost use Rattle.command_runs.specs.Runs.{IsCostFound, IsMeaningFound};

use crate::given::{load_given, load_shown};
use crate::running::{cost, mean};
use crate::timed::{Aim, limit_of};
use command_facts::{FoundRun, halted_run};
use command_requests::{CostWords, MeaningWords, ProgramFile};
use costs::Cost;
use diagnoses::Halted;
use memory_texts::Choice;
use observing::Watch;
use std::alloc::Global;
use system_files::Sources;

/// A run of the file's program, of which some declarations are shown. The watch is told how far it is.
///
/// It is refused for the program's file (as [`command_facts::load_program`] says), a name that is to be shown and isn't declared (P1), what
/// the cells hold (as [`command_facts::load_opening`] says), an input with too many values (E11), and want of memory (E16).
pub fn find_meaning<'a, S: Sources, V: Watch>(
    alloc: Global,
    file: &ProgramFile<'a>,
    words: MeaningWords<'a>,
    shown: Choice<'a>,
    sources: &mut S,
    watch: &mut V,
) -> Result<FoundRun<'a>, Halted<'a>>
    // It is the run by the definition on what the words give, in time, and what is shown is declared.
    ensures found { IfOk result (IsMeaningFound (S.Sources.holds sources.old) file.now words.entry shown.entry) }
    // None is found only for the program's file, a name, what the cells hold, or the run.
    ensures refused { IfErr result (RefusesMeaning (S.Sources.holds sources.old) file.now words.entry.opening (NamesUnknown shown.entry)) }
{
    let (loaded, input) = load_shown(alloc, file, words.opening, shown, sources)?;
    let limit = limit_of(alloc, Aim::Outcome, &loaded.program, &input, words, watch);
    let found = mean(alloc, &loaded.program, &input, limit.bound, watch);
    watch.close();
    match found {
        Ok(outcome) => Ok(FoundRun {
            loaded,
            input,
            limit,
            outcome,
        }),
        Err(refusal) => {
            let cells = loaded.program.layout().cells();
            Err(halted_run(refusal, &input, cells))
        }
    }
}

/// The same, with what it costs, and with nothing shown.
pub fn find_cost<'a, S: Sources, V: Watch>(
    alloc: Global,
    file: &ProgramFile<'a>,
    words: MeaningWords<'a>,
    costs: CostWords,
    sources: &mut S,
    watch: &mut V,
) -> Result<(FoundRun<'a>, Cost), Halted<'a>>
    // It is the run by the definition on what the words give, in time, with its cost for these processors and workers.
    ensures found { IfOk result (λ f. IsCostFound (S.Sources.holds sources.old) file.now words.entry costs f.0 f.1) }
    // None is found only for the program's file, what the cells hold, or the run.
    ensures refused { IfErr result (RefusesMeaning (S.Sources.holds sources.old) file.now words.entry.opening NamesNone) }
    // All files hold what they held.
    ensures same { IsSame (S.Sources.holds sources.new) (S.Sources.holds sources.old) }
{
    let (loaded, input) = load_given(alloc, file, words.opening, sources)?;
    let limit = limit_of(alloc, Aim::Cost, &loaded.program, &input, words, watch);
    let found = cost(alloc, &loaded.program, &input, limit.bound, costs, watch);
    watch.close();
    match found {
        Ok((outcome, cost)) => {
            let run = FoundRun {
                loaded,
                input,
                limit,
                outcome,
            };
            Ok((run, cost))
        }
        Err(refusal) => {
            let cells = loaded.program.layout().cells();
            Err(halted_run(refusal, &input, cells))
        }
    }
}
