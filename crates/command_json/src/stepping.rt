//! Runs of a program that are told statement by statement as they go.

ghost use Rattle.std.specs.Prelude.{◌≡◌, ◌∷◌, [], IfErr, IfOk, string_bytes};
ghost use Rattle.json_texts.specs.Lines.{IsJson};
ghost use Rattle.json_texts.specs.Streamed.{WroteJson};
ghost use Rattle.command_facts.specs.Found.{EndsIn, IsOutcomeOf, cut_at, entries_of};
ghost use Rattle.command_json.specs.Stepped as spec;

use crate::writing::write_json;
use command_facts::FoundSteps;
use journal::Ending;
use json_texts::{json_opening, json_outcome, stream_json};
use memory_texts::Choice;
use observing::Watch;
use pram_meaning::open;
use program_texts::{Status, Stop};
use std::alloc::{AllocError, Global};
use text_out::Out;

// Runs the program and writes each statement that is asked for as soon as it has run. The input fits, so that a run is refused for memory
// alone.
fn stream_lines<'a, V: Watch, O: Out>(
    alloc: Global,
    steps: &FoundSteps<'_>,
    watch: &mut V,
    out: &mut O,
) -> Result<Ending, Stop<'a>>
    ensures ends { IfOk result (λ r. EndsIn steps.now r.bound) }
    ensures outcome { IfOk result (λ r. IsOutcomeOf (cut_at steps.now r.bound) r.outcome) }
    ensures lines { IfOk result (λ r. WroteJson (O.Out.state out.old) (O.Out.state out.new)
        (spec.first_behind steps.now [] (entries_of (cut_at steps.now r.bound)))) }
    ensures cut { IfErr result (spec.IsCutBehind steps.now [] (O.Out.state out.old) (O.Out.state out.new)) }
{
    let (program, bound) = (&steps.loaded.program, steps.limit.bound);
    let (first, last) = (steps.words.from as usize, steps.words.to as usize);
    let source = steps.loaded.source.text();
    match stream_json(
        alloc,
        program,
        source,
        &steps.input,
        bound,
        steps.until(),
        first,
        last,
        watch,
        out,
    ) {
        Ok(ending) => Ok(ending),
        Err(failure) => Err(Stop::from(failure)),
    }
}

// The statements and the outcome.
fn write_run<'a, V: Watch, O: Out>(
    alloc: Global,
    steps: &FoundSteps<'_>,
    watch: &mut V,
    out: &mut O,
) -> Result<Ending, Stop<'a>>
    ensures told { spec.IsToldUpTo steps.now [] (O.Out.state out.old) (O.Out.state out.new) result }
{
    let ending = stream_lines(alloc, steps, watch, out)?;
    let layout = steps.loaded.program.layout();
    let line = json_outcome(alloc, layout, &ending.outcome, Choice::All)?;
    write_json(out, &line, Status::of(&ending.outcome))?;
    Ok(ending)
}

// What the cells hold before the first statement, on a line.
fn opening_line(alloc: Global, steps: &FoundSteps<'_>) -> Result<String, AllocError>
    ensures json { IfOk result (λ line. IsJson (spec.opening_of steps.now ∷ []) (string_bytes line)) }
{
    let run = open(alloc, &steps.loaded.program, &steps.input)?;
    json_opening(alloc, steps.loaded.program.layout(), &run.cells)
}

/// Runs a program and writes as lines of JSON what its cells hold before it, its statements, each as soon as it has run, and behind them
/// what it came to. Where its seconds are over it ends. The watch is told how far the run is. E17 where the writer failed, E16 where memory
/// was refused, behind the lines of the statements before.
pub(crate) fn write_stepped<'a, V: Watch, O: Out>(
    alloc: Global,
    steps: &FoundSteps<'_>,
    watch: &mut V,
    out: &mut O,
) -> Result<Ending, Stop<'a>>
    ensures told { spec.IsToldBy steps.now (O.Out.state out.old) (O.Out.state out.new) result }
{
    let line = opening_line(alloc, steps)?;
    out.write_all(line.as_bytes())?;
    write_run(alloc, steps, watch, out)
}
