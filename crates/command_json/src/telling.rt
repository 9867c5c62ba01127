//! What was found, told on standard output.

ghost use Rattle.std.specs.Prelude.{◌≡◌, ◌∷◌, [], IfOk, IfErr};
ghost use Rattle.std.specs.String.{string_bytes};
ghost use Rattle.json_texts.specs.Lines.{IsJson};
ghost use Rattle.comparing.specs.Found as pairs;
ghost use Rattle.scopes.specs.Found.{found_is};
ghost use Rattle.json_texts.specs.CostFacts.{cost_facts};
ghost use Rattle.json_texts.specs.OutcomeFacts.{chosen_facts};
ghost use Rattle.json_texts.specs.ExplorationFacts.{exploration_facts};
ghost use Rattle.json_texts.specs.PairFacts.{pair_facts};
ghost use Rattle.json_texts.specs.SweepFacts.{sweep_facts};
ghost use Rattle.json_texts.specs.TraceFacts.{trace_facts};
ghost use Rattle.write_rules.specs.Verdict.{verdict_of};
ghost use Rattle.command_json.specs.Facts as spec;

use crate::grading::grade_text;
use crate::writing::write_json;
use command_facts::{
    FoundCode, FoundOverall, FoundPair, FoundRun, FoundScope, FoundSweep, FoundTrace, Settled,
    status_of,
};
use command_requests::{CostWords, TraceWords};
use costs::Cost;
use exchange_counts::Counts;
use json_texts::{
    json_accepted, json_comparison, json_cost, json_exploration, json_outcome, json_overall,
    json_pair, json_sweep, json_trace, json_undecided,
};
use memory_texts::Choice;
use program_texts::{Status, Stop};
use std::alloc::{AllocError, Global};
use text_out::Out;
use tracer::{Rates, bsp_cost};

/// The word that a call is refused for which isn't told as JSON.
const JSON: &str = "json";

// What exchanges cost, where that is asked for.
fn cost_of(counts: &Counts, rates: Option<(u32, u32)>) -> Option<u128>
    ensures { result ≡ spec.cost_asked rates counts.now }
{
    match rates {
        None => None,
        Some((word, start)) => bsp_cost(counts, Rates { word, start }),
    }
}

// The exchanges of a run.
fn trace_text(
    alloc: Global,
    run: &FoundRun<'_>,
    words: TraceWords,
    found: &FoundTrace,
) -> Result<String, AllocError>
    ensures told { IfOk result (λ text. IsJson (trace_facts found.now.lines.items words.outcome run.now.loaded.program.layout
        (spec.cost_asked words.rates found.now.counts) found.now.counts (verdict_of run.now.outcome)) (string_bytes text)) }
{
    let (layout, cost) = (
        run.loaded.program.layout(),
        cost_of(&found.counts, words.rates),
    );
    json_trace(
        alloc,
        &found.counts,
        &found.lines,
        layout,
        words.outcome,
        cost,
        &run.outcome,
    )
}

// The outcome of a run of a program.
fn run_text(alloc: Global, run: &FoundRun<'_>, shown: Choice<'_>) -> Result<String, AllocError>
    ensures told { IfOk result (λ text. IsJson (chosen_facts shown.entry run.now.loaded.program.layout (verdict_of run.now.outcome) ∷ [])
        (string_bytes text)) }
{
    json_outcome(alloc, run.loaded.program.layout(), &run.outcome, shown)
}

// What it costs.
fn cost_text(
    alloc: Global,
    run: &FoundRun<'_>,
    words: CostWords,
    cost: &Cost,
) -> Result<String, AllocError>
    ensures told { IfOk result (λ text. IsJson (cost_facts run.now.loaded.program.layout (verdict_of run.now.outcome) cost.now
        words.schedule words.lines ∷ []) (string_bytes text)) }
{
    let layout = run.loaded.program.layout();
    json_cost(
        alloc,
        layout,
        &run.outcome,
        cost,
        words.schedule,
        words.lines,
    )
}

// A run of a listing.
fn code_text(alloc: Global, run: &FoundCode<'_>) -> Result<String, AllocError>
    ensures told { IfOk result (λ text. IsJson (spec.code_facts run.now ∷ []) (string_bytes text)) }
{
    json_outcome(alloc, run.code.code().layout(), &run.outcome, run.shown)
}

// The runs at several sizes.
fn sweep_text(alloc: Global, swept: &FoundSweep) -> Result<String, AllocError>
    ensures told { IfOk result (λ text. IsJson (sweep_facts swept.now.sweep.name swept.now.rows.items swept.now.growths)
        (string_bytes text)) }
{
    json_sweep(
        alloc,
        swept.sweep.name.as_slice(),
        &swept.rows,
        &swept.growths,
    )
}

// What is found on the inputs of a scope.
fn scope_text(alloc: Global, found: &FoundScope) -> Result<String, AllocError>
    ensures told { IfOk result (λ text. IsJson (exploration_facts found.now.program.layout found.now.specification found.now.drawn
        (found_is found.now.findings) ∷ []) (string_bytes text)) }
{
    json_exploration(
        alloc,
        found.program.layout(),
        &found.specification,
        found.drawn,
        &found.findings,
    )
}

// What is told of all inputs of a scope together.
fn survey_text(alloc: Global, found: &FoundOverall) -> Result<String, AllocError>
    ensures told { IfOk result (λ text. IsJson (spec.survey_facts found.now.program.layout found.now.scope found.now.told ∷ [])
        (string_bytes text)) }
{
    match &found.told {
        Ok(overall) => json_overall(alloc, found.program.layout(), found.scope, overall),
        Err(why) => json_undecided(alloc, found.scope, *why),
    }
}

// What is found of two programs on the same inputs.
fn pair_text(alloc: Global, pair: &FoundPair) -> Result<String, AllocError>
    ensures told { IfOk result (λ text. IsJson
        (pair_facts pair.now.first.layout pair.now.second.layout pair.now.precondition pair.now.drawn (pairs.found_is pair.now.comparison))
        (string_bytes text)) }
{
    let (first, second) = (pair.first.layout(), pair.second.layout());
    json_pair(
        alloc,
        first,
        second,
        &pair.precondition,
        pair.drawn,
        &pair.comparison,
    )
}

// The lines of what was found.
fn text_of<'a>(alloc: Global, found: &Settled<'_>) -> Result<String, Stop<'a>>
    ensures told { IfOk result (λ text. spec.IsJsonOf found.now (string_bytes text)) }
    ensures unmade { IfErr result (spec.IsUnmade found.now) }
{
    match found {
        Settled::Accepted(loaded) => Ok(json_accepted(alloc, &loaded.program)?),
        Settled::Compared(comparison) => Ok(json_comparison(alloc, comparison)?),
        Settled::Run(run, shown) => Ok(run_text(alloc, run, *shown)?),
        Settled::Costed(run, words, cost) => Ok(cost_text(alloc, run, *words, cost)?),
        Settled::Traced(run, words, exchanges) => { Ok(trace_text(alloc, run, *words, exchanges)?) }
        Settled::Swept(swept) => Ok(sweep_text(alloc, swept)?),
        Settled::Explored(found) => Ok(scope_text(alloc, found)?),
        Settled::Surveyed(found) => Ok(survey_text(alloc, found)?),
        Settled::Paired(pair) => Ok(pair_text(alloc, pair)?),
        Settled::Graded(found) => Ok(grade_text(alloc, found)?),
        Settled::Executed(run) => Ok(code_text(alloc, run)?),
        Settled::Version => Err(Stop::Number(JSON)),
        Settled::Explanation(_) => Err(Stop::Number(JSON)),
        Settled::Expanded(_) => Err(Stop::Number(JSON)),
        Settled::Planned(_) => Err(Stop::Number(JSON)),
        Settled::Exported(_) => Err(Stop::Number(JSON)),
        Settled::ExportedAlone(_) => Err(Stop::Number(JSON)),
    }
}

/// Writes what was found as lines of JSON, and nothing where memory for them was refused or it isn't told so.
pub(crate) fn write_found<'a, O: Out>(
    alloc: Global,
    found: &Settled<'_>,
    out: &mut O,
) -> Result<Status, Stop<'a>>
    ensures written { spec.WritesFound found.now (O.Out.state out.old) (O.Out.state out.new) result }
{
    let text = text_of(alloc, found)?;
    write_json(out, &text, status_of(found))
}
