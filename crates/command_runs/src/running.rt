//! What programs come to.

ghost use Rattle.std.specs.Prelude.{◌≡◌, ◌<◌, IfOk, IfErr};
ghost use Rattle.program_texts.specs.Report.{IsMeaningOf, IsMeaningRefused};
ghost use Rattle.write_rules.specs.Verdict.{verdict_of};
ghost use Rattle.command_facts.specs.Found.{ending_text};
ghost use Rattle.program_runs.specs.Reserved.{IsProgramRunWith};
ghost use Rattle.command_runs.specs.Runs as spec;
ghost use Rattle.command_runs.specs.Refused.{IsRefusedTo};

use crate::tracing::trace_of;
use command_facts::FoundTrace;
use command_requests::{CostWords, RunWords, TraceWords};
use costs::{Cost, cost_of};
use observing::{Watch, observe_watched};
use pram_check::Program;
use pram_meaning::silent::Silent;
use program_runs::run_program;
use program_texts::Refusal;
use std::alloc::Global;
use std::sync::Wait;
use std::thread::Threads;
use workers::Gate;
use write_rules::Outcome;

/// The outcome by the definition. The watch is told how far the run is.
pub(crate) fn mean<V: Watch>(
    alloc: Global,
    program: &Program,
    input: &[i64],
    bound: u32,
    watch: &mut V,
) -> Result<Outcome, Refusal>
    ensures meaning { IfOk result (λ o. IsMeaningOf program.now input.now bound (verdict_of o)) }
    ensures stopped { IfErr result (IsMeaningRefused program.now input.now) }
{
    let (_, done) = observe_watched(alloc, program, input, bound, Silent {}, watch);
    let outcome = done?;
    Ok(outcome)
}

// On how many processors rounds are counted, whether they are told or not.
fn processors_of(words: CostWords) -> u32
    ensures value { result ≡ spec.processors_of words.schedule }
    ensures some { 0 < result }
{
    match words.schedule {
        Some(processors) => processors,
        None => 1,
    }
}

/// The outcome by the definition, and what that run costs.
pub(crate) fn cost<V: Watch>(
    alloc: Global,
    program: &Program,
    input: &[i64],
    bound: u32,
    costs: CostWords,
    watch: &mut V,
) -> Result<(Outcome, Cost), Refusal>
    ensures meaning { IfOk result (λ f. IsMeaningOf program.now input.now bound (verdict_of f.0)) }
    ensures cost { IfOk result (λ f. spec.IsCostOf program.now input.now bound costs.schedule costs.workers f.1) }
    ensures stopped { IfErr result (IsMeaningRefused program.now input.now) }
{
    let (schedule, workers) = (processors_of(costs), costs.workers);
    let (outcome, cost) = cost_of(alloc, program, input, bound, schedule, workers, watch)?;
    Ok((outcome, cost))
}

/// The outcome by workers, and what is told of the exchanges.
pub(crate) fn trace<R: Threads + Wait + Sync, G: Gate + Sync>(
    rt: &R,
    alloc: Global,
    program: &Program,
    input: &[i64],
    words: RunWords<'_>,
    trace: TraceWords,
    gate: &G,
) -> Result<(Outcome, FoundTrace), Refusal>
    ensures meaning { IfOk result (λ f. IsMeaningOf program.now input.now words.entry.options.bound (verdict_of f.0)) }
    ensures ran { IfOk result (λ f. IsProgramRunWith program.now input.now words.entry.options words.entry.reserve (verdict_of f.0)
        f.1.counts) }
    ensures lines { IfOk result (λ f. spec.AreLinesAsked trace.lines program.now input.now words.entry.options.bound f.1.lines.items) }
    ensures ends { IfOk result (λ f. f.1.ends.items ≡ ending_text program.now.layout (verdict_of f.0)) }
    ensures stopped { IfErr result (IsRefusedTo words.entry program.now input.now) }
{
    let (options, reserve, bound) = (words.options, words.reserve, words.options.bound);
    let (outcome, counts) = run_program(rt, alloc, program, input, options, reserve, gate)?;
    let told = trace_of(alloc, program, input, trace.lines, bound, &outcome, counts)?;
    Ok((outcome, told))
}
