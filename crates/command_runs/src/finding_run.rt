//! Runs by workers.

ghost use Rattle.std.specs.Prelude.{◌≡◌, IfOk, IfErr};
ghost use Rattle.command_runs.specs.Refused.{NamesNone, NamesUnknown, RefusesCodeRun, RefusesWorkers};
ghost use Rattle.command_runs.specs.Runs.{IsCodeFound, IsRunFound, IsTraceFound};

use crate::given::{check_names, load_given, load_shown};
use crate::running::trace;
use command_facts::{
    FoundCode, FoundRun, FoundTrace, Limit, halted_run, load_listing, load_opening,
};
use command_requests::{ProgramFile, RunWords, TraceWords};
use diagnoses::Halted;
use memory_texts::Choice;
use observing::Watch;
use program_runs::{outcome_of_code, outcome_of_program};
use std::alloc::Global;
use std::sync::Wait;
use std::thread::Threads;
use system_files::Sources;
use workers::Gate;

/// A run of the file's program by workers, of which some declarations are shown. The watch is told how far it is.
///
/// It is refused for the program's file (as [`command_facts::load_program`] says), a name that is to be shown and isn't declared (P1), what
/// the cells hold (as [`command_facts::load_opening`] says), the workers, the map and the input (E13, E12, E11), a run that comes past its
/// reserve (E18), and want of memory (E16).
pub fn find_run<'a, R: Threads + Wait + Sync, S: Sources, V: Watch + Gate + Sync>(
    rt: &R,
    alloc: Global,
    file: &ProgramFile<'a>,
    words: RunWords<'a>,
    shown: Choice<'a>,
    sources: &mut S,
    watch: &mut V,
) -> Result<FoundRun<'a>, Halted<'a>>
    // It is the run on what the words give, by their workers, map and reserve, and what is shown is declared.
    ensures found { IfOk result (IsRunFound (S.Sources.holds sources.old) file.now words.entry shown.entry) }
    // None is found only for the program's file, a name, what the cells hold, or the run.
    ensures refused { IfErr result (RefusesWorkers (S.Sources.holds sources.old) file.now words.entry (NamesUnknown shown.entry)) }
{
    let (loaded, input) = load_shown(alloc, file, words.opening, shown, sources)?;
    let (program, options, reserve) = (&loaded.program, words.options, words.reserve);
    let found = outcome_of_program(rt, alloc, program, &input, options, reserve, &*watch);
    watch.close();
    match found {
        Ok(outcome) => Ok(FoundRun {
            loaded,
            input,
            limit: Limit {
                bound: words.options.bound,
                seconds: None,
            },
            outcome,
        }),
        Err(refusal) => {
            let cells = loaded.program.layout().cells();
            Err(halted_run(refusal, &input, cells))
        }
    }
}

/// The same, with its exchanges, and with nothing shown.
pub fn find_trace<'a, R: Threads + Wait + Sync, S: Sources, V: Watch + Gate + Sync>(
    rt: &R,
    alloc: Global,
    file: &ProgramFile<'a>,
    words: RunWords<'a>,
    asked: TraceWords,
    sources: &mut S,
    watch: &mut V,
) -> Result<(FoundRun<'a>, FoundTrace), Halted<'a>>
    // It is the run on what the words give, by their workers, map and reserve, with its exchanges and their lines if these are asked for.
    ensures found { IfOk result (λ f. IsTraceFound (S.Sources.holds sources.old) file.now words.entry asked f.0 f.1) }
    // None is found only for the program's file, what the cells hold, or the run.
    ensures refused { IfErr result (RefusesWorkers (S.Sources.holds sources.old) file.now words.entry NamesNone) }
{
    let (loaded, input) = load_given(alloc, file, words.opening, sources)?;
    let found = trace(rt, alloc, &loaded.program, &input, words, asked, &*watch);
    watch.close();
    match found {
        Ok((outcome, exchanges)) => {
            let run = FoundRun {
                loaded,
                input,
                limit: Limit {
                    bound: words.options.bound,
                    seconds: None,
                },
                outcome,
            };
            Ok((run, exchanges))
        }
        Err(refusal) => {
            let cells = loaded.program.layout().cells();
            Err(halted_run(refusal, &input, cells))
        }
    }
}

/// A run of the file's code by workers, of which some declarations are shown. It is refused as [`find_run`] is, and as
/// [`command_facts::load_listing`] refuses the file.
pub fn find_code_run<'a, R: Threads + Wait + Sync, S: Sources, V: Watch + Gate + Sync>(
    rt: &R,
    alloc: Global,
    file: &'a str,
    words: RunWords<'a>,
    shown: Choice<'a>,
    sources: &mut S,
    watch: &mut V,
) -> Result<FoundCode<'a>, Halted<'a>>
    // It is the run of the file's code on what the words give, by their workers, map and reserve.
    ensures found { IfOk result (IsCodeFound (S.Sources.holds sources.old) file.now words.entry shown.entry) }
    // None is found only for the listing's file, a name, what the cells hold, or the run.
    ensures refused { IfErr result (RefusesCodeRun (S.Sources.holds sources.old) file.now words.entry shown.entry) }
{
    let code = load_listing(alloc, sources, file)?;
    check_names(code.code().layout(), shown)?;
    let input = load_opening(alloc, sources, words.opening, code.code().layout())?;
    let (options, reserve) = (words.options, words.reserve);
    let found = outcome_of_code(rt, alloc, &code, &input, options, reserve, &*watch);
    watch.close();
    match found {
        Ok(outcome) => Ok(FoundCode {
            code,
            shown,
            outcome,
        }),
        Err(refusal) => {
            let cells = code.code().layout().cells();
            Err(halted_run(refusal, &input, cells))
        }
    }
}
