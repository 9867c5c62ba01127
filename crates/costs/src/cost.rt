//! What a run costs.

ghost use Rattle.std.specs.Prelude.{◌≡◌, ◌↔◌, ◌<◌, ◌≤◌, ◌+◌, ◌/◌, IfOk, length};
ghost use Rattle.pram_model.specs.Layout.{total_size};
ghost use Rattle.write_rules.specs.Verdict.{verdict_of};
ghost use Rattle.pram_meaning.specs.Outcome.{IsOutcome};
ghost use Rattle.exchange_bound.specs.Bound.{exchange_bound};
ghost use Rattle.costs.specs.Communication as communication;
ghost use Rattle.costs.specs.Cost as spec;
ghost use Rattle.costs.specs.Steps.{run_steps};
ghost use Rattle.costs.specs.Time.{IsTimeWithin};

use crate::line_cost::LineCost;
use crate::row_costs::costs_by_line;
use crate::whole::run_whole;
use crate::words::words_asked;
use observing::Watch;
use pram_check::Program;
use pram_meaning::MeaningRefusal;
use std::alloc::Global;
use write_rules::Outcome;

/// What a run costs: its statements (time), one for each processor of each of them (work), the most
/// processors at once, and its shared reads and writes; its exchange bound; for a number of workers,
/// where one is given, the most words that they send; for a number of processors the rounds in which
/// they do that work, beside what Brent's principle allows; and of each line that ran what it costs,
/// in ascending order.
#[derive(Drop)]
pub struct Cost {
    pub time: u32,
    pub work: u64,
    pub width: u32,
    pub reads: u128,
    pub writes: u64,
    pub most_exchanges: u128,
    pub most_words: Option<u128>,
    pub rounds: u64,
    pub most_rounds: u64,
    pub lines: Vec<LineCost>,
}

/// Runs a program on an input, for at most `bound` statements, as [`pram_meaning::reference_run`]
/// does, and says beside the outcome what the run costs; rounds are those on `schedule` processors,
/// and words those of `workers`, as `IsProgramRun` of `program_runs` counts them. The watch is told
/// how far the run is.
/// A statement that faults counts in time and work, and none of its accesses does; a run that
/// faults has the bounds of what it came to. E11 where there are more values than cells; E16 only
/// where memory was refused.
///
/// JáJá, An Introduction to Parallel Algorithms, chapter 1: work and time, and Brent's scheduling
/// principle.
pub fn cost_of<V: Watch>(
    alloc: Global,
    program: &Program,
    input: &[i64],
    bound: u32,
    schedule: u32,
    workers: Option<u32>,
    watch: &mut V,
) -> Result<(Outcome, Cost), MeaningRefusal>
    requires some { 0 < schedule }
    // The outcome is that of the program on the input within the bound.
    ensures outcome { IfOk result (λ r. IsOutcome program.now input.now bound (verdict_of r.0)) }
    // An input that is run has no more values than the program has cells.
    ensures fits { IfOk result (λ r. length input.now ≤ total_size program.now.layout) }
    // The input is refused as too long exactly where it has more values than the program has cells.
    ensures too_long { (result ≡ Err MeaningRefusal.InputTooLong) ↔ (total_size program.now.layout < length input.now) }
    // The time is how many statements ran.
    ensures time { IfOk result (λ r. r.1.time ≡ spec.time (run_steps program.now input.now bound)) }
    // The time is at most the bound, and is the bound where the run goes on.
    ensures within { IfOk result (λ r. IsTimeWithin (verdict_of r.0) r.1.time bound) }
    // The work is for each statement that ran one for each processor that executed it.
    ensures work { IfOk result (λ r. r.1.work ≡ spec.work (run_steps program.now input.now bound)) }
    // The width is the most processors that executed a statement at once.
    ensures width { IfOk result (λ r. r.1.width ≡ spec.most_processors (run_steps program.now input.now bound)) }
    // The reads are the shared reads of the run, without those of a statement that faults.
    ensures reads { IfOk result (λ r. r.1.reads ≡ spec.reads (run_steps program.now input.now bound)) }
    // The writes are the shared writes of the run, without those of a statement that faults.
    ensures writes { IfOk result (λ r. r.1.writes ≡ spec.writes (run_steps program.now input.now bound)) }
    // The bound on the supersteps of the run is told.
    ensures most_exchanges { IfOk result (λ r. r.1.most_exchanges ≡ exchange_bound program.now input.now bound) }
    // For p workers, where given, the most words are 2r+kw+2pu+kv, for r reads and w writes inside pardo, u and v
    // outside, and k words a write.
    ensures most_words { IfOk result (λ r. r.1.most_words ≡ communication.most_words program.now workers input.now bound) }
    // The rounds are those in which the given number of processors does the work, statement by statement.
    ensures rounds { IfOk result (λ r. r.1.rounds ≡ spec.rounds schedule (run_steps program.now input.now bound)) }
    // The most rounds are the work divided by the number of processors, rounded down, and the time.
    ensures most_rounds { IfOk result (λ r. r.1.most_rounds ≡ r.1.work / schedule + r.1.time) }
    // Each line that ran is told, once and in ascending order: how often it ran, and the work, the reads and the writes
    // of its statements.
    ensures lines { IfOk result (λ r. r.1.lines.items ≡ spec.line_costs (run_steps program.now input.now bound)) }
    // The rounds are no more than the most rounds.
    ensures brent { IfOk result (λ r. r.1.rounds ≤ r.1.most_rounds) }
{
    let (outcome, ledger, outer_reads) = run_whole(alloc, program, input, bound, schedule, watch)?;
    let Ok(lines) = costs_by_line(alloc, &ledger.lines) else {
        return Err(MeaningRefusal::OutOfMemory);
    };
    let Ok(most_exchanges) = ledger.exchanges.close() else {
        return Err(MeaningRefusal::OutOfMemory);
    };
    let tally = ledger.all;
    let Ok(most_words) = words_asked(program.rule(), workers, &tally, outer_reads) else {
        return Err(MeaningRefusal::OutOfMemory);
    };
    let most_rounds = tally.work / u64::from(schedule) + u64::from(tally.time);
    let cost = Cost {
        time: tally.time,
        work: tally.work,
        width: tally.width,
        reads: tally.reads,
        writes: tally.writes,
        most_exchanges,
        most_words,
        rounds: tally.rounds,
        most_rounds,
        lines,
    };
    Ok((outcome, cost))
}
