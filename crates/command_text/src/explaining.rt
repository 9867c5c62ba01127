//! What a call writes to standard error.

ghost use Rattle.std.specs.Prelude.{◌≡◌, ◌++◌, ℕ, List, None, Some, map, IfSome};
ghost use Rattle.std.specs.String.{string_bytes};
ghost use Rattle.text_out.specs.Out.{Writes};
ghost use Rattle.diagnoses.specs.FalseLines.{false_note};
ghost use Rattle.diagnoses.specs.FaultTexts.{fault_sentence};
ghost use Rattle.diagnoses.specs.Reasons.{reason_is, run_reason as why, unknown};
ghost use Rattle.std.specs.Option.{option_map};
ghost use Rattle.endless_runs.specs.Endless.{HasCycle, NeverEnds};
ghost use Rattle.command_facts.specs.Written.{IsReported};
ghost use Rattle.command_text.specs.Explained as spec;

use crate::terminal::Terminal;
use command_facts::{FoundCode, FoundRun, Settled, write_for_editors};
use command_requests::{Given, write_word_fault, wrong_option};
use diagnoses::{
    Halted, Reason, Source, run_reason, write_false_line, write_fault_sentence, write_refused_line,
    write_run_fault, write_stop_diagnosis,
};
use endless_runs::{Cycle, find_cycle};
use itoa::Buffer;
use observing::Watch;
use pram_check::Program;
use pram_trees::Layout;
use program_texts::Stop;
use std::alloc::Global;
use text_out::{Out, WriteFault};
use text_places::write_escaped;
use write_rules::{Fault, Outcome};

// The most cells of a run that is searched for a loop by which it never ends.
const MOST_SEARCHED: u32 = 65_536;

// The option of the call that doesn't take the word for which it stops.
fn wrong_of(words: &[String], stop: &Stop<'_>) -> Option<Given>
    ensures { spec.IsWrongOf (map string_bytes words.now) stop.now result }
{
    match stop {
        Stop::Number(word) => wrong_option(words, word),
        _ => None,
    }
}

// What is said behind the line of a refusal.
fn write_behind<E: Out>(
    alloc: Global,
    err: &mut E,
    words: &[String],
    halted: &Halted<'_>,
    wrong: Option<Given>,
) -> Result<(), WriteFault>
    requires wrong { spec.IsWrongOf (map string_bytes words.now) halted.now.stop wrong }
    ensures written { (said : List ℕ) × spec.IsSaidBehind (map string_bytes words.now) halted.now.stop halted.now.about said
        × Writes (E.Out.state err.old) (E.Out.state err.new) said result }
{
    match &halted.stop {
        Stop::Number(word) => write_word_fault(err, wrong, word),
        _ => write_stop_diagnosis(alloc, err, &halted.stop, &halted.about),
    }
}

// The line of a refusal, and if that is asked for what is said behind it.
fn write_in_words<E: Out>(
    alloc: Global,
    err: &mut E,
    words: &[String],
    halted: &Halted<'_>,
    explains: bool,
) -> Result<(), WriteFault>
    ensures written { (text : List ℕ)
        × spec.IsInWords explains (map string_bytes words.now) halted.now.stop halted.now.about text
        × Writes (E.Out.state err.old) (E.Out.state err.new) text result }
{
    let wrong = wrong_of(words, &halted.stop);
    write_refused_line(err, &halted.stop, &halted.about)?;
    if explains {
        write_behind(alloc, err, words, halted, wrong)
    } else {
        Ok(())
    }
}

fn write_halt<E: Out>(
    alloc: Global,
    err: &mut E,
    words: &[String],
    halted: &Halted<'_>,
    on: Terminal,
) -> Result<(), WriteFault>
    ensures written { (text : List ℕ)
        × spec.IsTold on.gnu on.errors (map string_bytes words.now) halted.now.stop halted.now.about text
        × Writes (E.Out.state err.old) (E.Out.state err.new) text result }
{
    if on.gnu {
        write_for_editors(alloc, err, words, halted)
    } else {
        write_in_words(alloc, err, words, halted, on.errors)
    }
}

/// Writes what is refused, of a call of these words, to standard error. That it fails changes no status.
pub(crate) fn report<E: Out>(
    alloc: Global,
    err: &mut E,
    words: &[String],
    halted: &Halted<'_>,
    on: Terminal,
)
    ensures written { spec.IsRefusalReported on (map string_bytes words.now) halted.now.stop halted.now.about
        (E.Out.state err.old) (E.Out.state err.new) }
{
    if write_halt(alloc, err, words, halted, on).is_ok() {
        let _ = err.flush();
    }
}

// Why a run faults, for which the meaning is run again; `None` where memory for that was refused.
fn find_reason<V: Watch>(
    alloc: Global,
    program: &Program,
    input: &[i64],
    bound: u32,
    watch: &mut V,
) -> Option<Reason>
    ensures { IfSome result (λ reason. reason_is reason ≡ why program.now input.now bound) }
{
    let found = run_reason(alloc, program, input, bound, watch);
    watch.close();
    found
}

// Writes what is said of a fault whose reason wasn't found.
fn write_fault_alone<E: Out>(
    alloc: Global,
    err: &mut E,
    source: &Source<'_>,
    layout: &Layout,
    fault: &Fault,
) -> Result<(), WriteFault>
    ensures written { Writes (E.Out.state err.old) (E.Out.state err.new) (spec.fault_said source.now layout.now fault.now None) result }
{
    let reason = Reason::unknown(alloc);
    write_run_fault(err, source, layout, fault, &reason)?;
    err.write_all(b"why isn't told: memory to find it was refused\n")
}

// Writes what is said of a fault by the reason that was found.
fn write_fault_of<E: Out>(
    alloc: Global,
    err: &mut E,
    source: &Source<'_>,
    layout: &Layout,
    fault: &Fault,
    reason: &Option<Reason>,
) -> Result<(), WriteFault>
    ensures written { Writes (E.Out.state err.old) (E.Out.state err.new)
        (spec.fault_said source.now layout.now fault.now (option_map reason_is reason.now)) result }
{
    match reason {
        Some(reason) => write_run_fault(err, source, layout, fault, reason),
        None => write_fault_alone(alloc, err, source, layout, fault),
    }
}

// Writes what is said of a run's fault.
fn say_run_fault<V: Watch, E: Out>(
    alloc: Global,
    watch: &mut V,
    err: &mut E,
    run: &FoundRun<'_>,
    fault: &Fault,
)
    ensures written { (said : List ℕ) × spec.IsFaultSaid run.now fault.now said
        × IsReported (E.Out.state err.old) (E.Out.state err.new) said }
{
    let program = &run.loaded.program;
    let bound = run.limit.bound;
    let reason = find_reason(alloc, program, &run.input, bound, watch);
    if write_fault_of(
        alloc,
        err,
        &run.loaded.source,
        program.layout(),
        fault,
        &reason,
    )
    .is_ok()
    {
        let _ = err.flush();
    }
}

fn write_bound<E: Out>(err: &mut E, bound: u32) -> Result<(), WriteFault>
    ensures written { Writes (E.Out.state err.old) (E.Out.state err.new) (spec.bound_sentence bound) result }
{
    let mut digits = Buffer::new();
    err.write_parts(&[
        b"the run met its bound of ",
        digits.format(bound).as_bytes(),
        b" statements: --bound N gives it others\n",
    ])
}

fn write_cycle<E: Out>(err: &mut E, cycle: Cycle) -> Result<(), WriteFault>
    ensures written { Writes (E.Out.state err.old) (E.Out.state err.new) (spec.cycle_sentence cycle) result }
{
    err.write_parts(&[
        b"this never ends: the loop of line ",
        Buffer::new().format(cycle.line).as_bytes(),
        b" comes back to the same state after ",
        Buffer::new().format(cycle.statements).as_bytes(),
        b" statements\n",
    ])
}

// A loop by which a run never ends, where it has no more cells than these: it is run again for that, with some of its states kept.
fn cycle_of<V: Watch>(alloc: Global, watch: &mut V, run: &FoundRun<'_>) -> Option<Cycle>
    ensures never { (cycle : Cycle) → result ≡ Some cycle → NeverEnds run.now.loaded.program run.now.input.items }
    ensures found { (cycle : Cycle) → result ≡ Some cycle → HasCycle run.now.loaded.program run.now.input.items cycle }
{
    let program = &run.loaded.program;
    if program.layout().cells() > MOST_SEARCHED {
        return None;
    }
    let bound = run.limit.bound;
    let found = find_cycle(alloc, program, &run.input, bound, watch);
    watch.close();
    found
}

fn write_bound_of<E: Out>(err: &mut E, bound: u32, cycle: Option<Cycle>) -> Result<(), WriteFault>
    ensures written { Writes (E.Out.state err.old) (E.Out.state err.new) (spec.bound_sentence bound ++ spec.cycle_text cycle) result }
{
    write_bound(err, bound)?;
    match cycle {
        Some(cycle) => write_cycle(err, cycle),
        None => Ok(()),
    }
}

// Writes that a run met its bound, and that it never ends where that is known.
fn say_bound<V: Watch, E: Out>(alloc: Global, watch: &mut V, err: &mut E, run: &FoundRun<'_>)
    ensures written { spec.IsBoundSaid run.now (E.Out.state err.old) (E.Out.state err.new) }
{
    let cycle = cycle_of(alloc, watch, run);
    if write_bound_of(err, run.limit.bound, cycle).is_ok() {
        let _ = err.flush();
    }
}

fn write_time<E: Out>(err: &mut E, seconds: u32, bound: u32) -> Result<(), WriteFault>
    ensures written { Writes (E.Out.state err.old) (E.Out.state err.new) (spec.time_sentence seconds bound) result }
{
    err.write_parts(&[
        b"--seconds ",
        Buffer::new().format(seconds).as_bytes(),
        b" ended the run after statement ",
        Buffer::new().format(bound).as_bytes(),
        b"\n",
    ])
}

fn write_written<E: Out>(err: &mut E, name: &str) -> Result<(), WriteFault>
    ensures written { Writes (E.Out.state err.old) (E.Out.state err.new) (spec.written_line name.now) result }
{
    err.write_all(b"wrote the input to ")?;
    write_escaped(err, name.as_bytes())?;
    err.write_all(b"\n")
}

/// Writes that an input was written into a file of this name. That it fails changes no status.
pub(crate) fn say_written<E: Out>(err: &mut E, name: &str)
    ensures said { spec.IsWrittenSaid name.now (E.Out.state err.old) (E.Out.state err.new) }
{
    if write_written(err, name).is_ok() {
        let _ = err.flush();
    }
}

// Writes that there was no more time for a run.
fn say_time<E: Out>(err: &mut E, seconds: u32, bound: u32)
    ensures written { IsReported (E.Out.state err.old) (E.Out.state err.new) (spec.time_sentence seconds bound) }
{
    if write_time(err, seconds, bound).is_ok() {
        let _ = err.flush();
    }
}

// Writes why a run goes on: its time was over, or if that is asked for that its bound was met.
fn say_limit<V: Watch, E: Out>(
    alloc: Global,
    watch: &mut V,
    err: &mut E,
    run: &FoundRun<'_>,
    explains: bool,
)
    ensures left { spec.IsLimitSaid explains run.now.limit.seconds run.now (E.Out.state err.old) (E.Out.state err.new) }
{
    match run.limit.seconds {
        Some(seconds) => say_time(err, seconds, run.limit.bound),
        None => {
            if explains {
                say_bound(alloc, watch, err, run)
            }
        }
    }
}

/// Writes what is said of the fault of a program's run, or that its bound was met, where that is asked for; and always that its time was
/// over. The watch is told how far a run is that is made again for that.
pub(crate) fn explain_run<V: Watch, E: Out>(
    alloc: Global,
    watch: &mut V,
    err: &mut E,
    run: &FoundRun<'_>,
    explains: bool,
)
    ensures left { spec.IsRunExplained explains run.now run.now.outcome (E.Out.state err.old) (E.Out.state err.new) }
{
    match &run.outcome {
        Outcome::Ended { .. } => {}
        Outcome::GoesOn { .. } => say_limit(alloc, watch, err, run, explains),
        Outcome::Faulted { fault, .. } => {
            if explains {
                say_run_fault(alloc, watch, err, run, fault)
            }
        }
    }
}

// Writes what is said of the fault of code.
fn say_code_fault<E: Out>(alloc: Global, err: &mut E, run: &FoundCode<'_>, fault: &Fault)
    ensures written { IsReported (E.Out.state err.old) (E.Out.state err.new) (fault_sentence run.now.code.layout fault.now unknown) }
{
    let reason = Reason::unknown(alloc);
    if write_fault_sentence(err, run.code.code().layout(), fault, &reason).is_ok() {
        let _ = err.flush();
    }
}

fn explain_code<E: Out>(alloc: Global, err: &mut E, run: &FoundCode<'_>, explains: bool)
    ensures left { spec.IsCodeExplained explains run.now run.now.outcome (E.Out.state err.old) (E.Out.state err.new) }
{
    if !explains {
        return;
    }
    match &run.outcome {
        Outcome::Ended { .. } => {}
        Outcome::GoesOn { .. } => {}
        Outcome::Faulted { fault, .. } => say_code_fault(alloc, err, run, fault),
    }
}

// Writes what is said of a comment of a program that begins as a size line and is none.
fn say_false_line<E: Out>(err: &mut E, source: &Source<'_>)
    ensures written { IsReported (E.Out.state err.old) (E.Out.state err.new) (false_note source.now) }
{
    if write_false_line(err, source).is_ok() {
        let _ = err.flush();
    }
}

fn explain_accepted<E: Out>(err: &mut E, source: &Source<'_>, explains: bool)
    ensures left { spec.IsAcceptedExplained explains source.now (E.Out.state err.old) (E.Out.state err.new) }
{
    if explains {
        say_false_line(err, source)
    }
}

/// Writes what is said of the fault of what was found, or of a comment that is no size line, where that is asked for, to standard error.
/// That it fails changes no status.
pub(crate) fn explain<V: Watch, E: Out>(
    alloc: Global,
    watch: &mut V,
    err: &mut E,
    found: &Settled<'_>,
    explains: bool,
)
    ensures left { spec.IsExplained explains found.now (E.Out.state err.old) (E.Out.state err.new) }
{
    match found {
        Settled::Run(run, _) => explain_run(alloc, watch, err, run, explains),
        Settled::Costed(run, _, _) => explain_run(alloc, watch, err, run, explains),
        Settled::Traced(run, _, _) => explain_run(alloc, watch, err, run, explains),
        Settled::Executed(run) => explain_code(alloc, err, run, explains),
        Settled::Version => {}
        Settled::Explanation(_) => {}
        Settled::Accepted(loaded) => explain_accepted(err, &loaded.source, explains),
        Settled::Expanded(_) => {}
        Settled::Planned(_) => {}
        Settled::Exported(_) => {}
        Settled::ExportedAlone(_) => {}
        Settled::Explored(_) => {}
        Settled::Surveyed(_) => {}
        Settled::Paired(_) => {}
        Settled::Graded(_) => {}
        Settled::Compared(_) => {}
        Settled::Swept(_) => {}
    }
}
