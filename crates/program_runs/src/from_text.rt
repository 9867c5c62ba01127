//! From a text to the outcome of its program, by workers.

ghost use Rattle.std.specs.Prelude.{◌≡◌, ℕ, List, Some, IfOk, IfErr};
ghost use Rattle.write_rules.specs.Verdict.{verdict_of};
ghost use Rattle.superstep_machine.specs.Trace.{Exchange};
ghost use Rattle.pram_meaning.specs.Values.{AreValues};
ghost use Rattle.program_texts.specs.Report.{IsMeaningOf, IsProgramOf, IsRunOf};
ghost use Rattle.program_runs.specs.Runs.{IsRunByWorkers, IsRunRefused};
ghost use Rattle.program_runs.specs.Reserved.{IsProgramRefusedWith, IsProgramRunWith, IsRunByWorkersWith, IsRunRefusedWith};

use crate::compiler::compile_program;
use crate::on_map::{outcome_of_tidied, run_code};
use exchange_counts::Counts;
use pram_check::Program;
use pram_trees::Layout;
use program_texts::{Refusal, read_program};
use run_options::{Options, Reserve};
use std::alloc::Global;
use std::sync::Wait;
use std::thread::Threads;
use workers::Gate;
use write_rules::Outcome;

/// How a run came out, the shared declarations by which its cells are named, and the exchanges of its workers.
#[derive(Drop)]
pub struct Report {
    pub layout: Layout,
    pub outcome: Outcome,
    pub counts: Counts,
}

// The values of an input have 64 bits: that is known of a value which is read.
fn have_64_bits(input: &[i64])
    ensures { AreValues input.now }
{
    'values: for place in 0..input.len() {
        let _value = input[place];
    }
}

/// Compiles a program and runs its code on an input, by the workers and the map of the options, each in a thread of its own that passes
/// the gate before its exchanges: its outcome, which is the program's by its meaning, and the exchanges of the workers, of which each keeps
/// 24 bytes an exchange. It is refused for the first of E13, E12 and E11 that holds; for E16 where memory or a thread was refused; and with
/// a reserve for E18, exactly where the run comes past that.
pub fn run_program<R: Threads + Wait + Sync, G: Gate + Sync>(
    rt: &R,
    alloc: Global,
    program: &Program,
    input: &[i64],
    options: Options,
    reserve: Option<Reserve>,
    gate: &G,
) -> Result<(Outcome, Counts), Refusal>
    // The outcome is the program's by its meaning, whichever rule it is under.
    ensures meaning { IfOk result (λ found. IsMeaningOf program.now input.now options.bound (verdict_of found.0)) }
    // The exchanges are those of the program's code, as many at most as its bound where it doesn't fault, and within
    // the reserve.
    ensures run { IfOk result (λ found. IsProgramRunWith program.now input.now options reserve (verdict_of found.0) found.1) }
    // E13, E12 and E11 are answered only where they hold, in this order, and E18 only where the run comes past the
    // reserve.
    ensures stopped { IfErr result (IsProgramRefusedWith program.now input.now options reserve) }
    // The outcome is that of each text that the program is of.
    ensures outcome { IfOk result (λ found. (text : List ℕ) → IsProgramOf text program.now →
        IsRunOf text input.now options.bound program.now.layout (verdict_of found.0)) }
    // The exchanges are those of each text that the program is of, and within the reserve.
    ensures exchanges { IfOk result (λ found. (text : List ℕ) → IsProgramOf text program.now →
        IsRunByWorkersWith text input.now options reserve (verdict_of found.0) found.1) }
    // Each refusal is that of each text that the program is of, as its run would be refused.
    ensures refused { (text : List ℕ) → IsProgramOf text program.now → IsRunRefusedWith text input.now options reserve result }
{
    have_64_bits(input);
    let code = compile_program(alloc, program)?;
    run_code(rt, alloc, &code, input, options, reserve, gate)
}

/// The same run, of which only the outcome is wanted: nothing is kept of an exchange, so that on the way memory is asked for by the output
/// alone. It is refused as `run_program` is.
pub fn outcome_of_program<R: Threads + Wait + Sync, G: Gate + Sync>(
    rt: &R,
    alloc: Global,
    program: &Program,
    input: &[i64],
    options: Options,
    reserve: Option<Reserve>,
    gate: &G,
) -> Result<Outcome, Refusal>
    // The outcome is the program's by its meaning, whichever rule it is under.
    ensures meaning { IfOk result (λ outcome. IsMeaningOf program.now input.now options.bound (verdict_of outcome)) }
    // There are exchanges of the program's code up to it, as many at most as its bound where it doesn't fault, and
    // within the reserve.
    ensures run { IfOk result (λ outcome. (exchanges : List Exchange)
        × IsProgramRunWith program.now input.now options reserve (verdict_of outcome) exchanges) }
    // E13, E12 and E11 are answered only where they hold, in this order, and E18 only where the run comes past the
    // reserve.
    ensures stopped { IfErr result (IsProgramRefusedWith program.now input.now options reserve) }
    // The outcome is that of each text that the program is of.
    ensures outcome { IfOk result (λ outcome. (text : List ℕ) → IsProgramOf text program.now →
        IsRunOf text input.now options.bound program.now.layout (verdict_of outcome)) }
    // Each text that the program is of has such exchanges, within the reserve.
    ensures exchanges { IfOk result (λ outcome. (text : List ℕ) → IsProgramOf text program.now →
        (exchanges : List Exchange) × IsRunByWorkersWith text input.now options reserve (verdict_of outcome) exchanges) }
    // Each refusal is that of each text that the program is of, as its run would be refused.
    ensures refused { (text : List ℕ) → IsProgramOf text program.now → IsRunRefusedWith text input.now options reserve result }
{
    have_64_bits(input);
    let code = compile_program(alloc, program)?;
    outcome_of_tidied(rt, alloc, &code, input, options, reserve, gate)
}

// The same from a text, with its exchanges, with a reserve or without.
fn run_text_with<R: Threads + Wait + Sync, G: Gate + Sync>(
    rt: &R,
    alloc: Global,
    text: &[u8],
    input: &[i64],
    options: Options,
    reserve: Option<Reserve>,
    gate: &G,
) -> Result<Report, Refusal>
    ensures outcome { IfOk result (λ r. IsRunOf text.now input.now options.bound r.layout (verdict_of r.outcome)) }
    ensures exchanges { IfOk result (λ r. IsRunByWorkersWith text.now input.now options reserve (verdict_of r.outcome) r.counts) }
    ensures refused { IsRunRefusedWith text.now input.now options reserve result }
{
    let program = read_program(alloc, text)?;
    let (outcome, counts) = run_program(rt, alloc, &program, input, options, reserve, gate)?;
    Ok(Report {
        layout: program.into_layout(),
        outcome,
        counts,
    })
}

/// Compiles the program of a text and runs its code on an input by workers in threads of their own, which exchange messages at a
/// barrier. However many workers there are, wherever the map lays the cells and however the threads take turns, the outcome is the
/// program's by its meaning: it ends with that output and memory exactly when the program does within the bound, faults at that line and
/// place with that output exactly when it does, and otherwise gives the same output so far. The exchanges are those of its compiled
/// code. Each worker passes the gate before each of its exchanges; nothing is said of it.
///
/// A text is refused for the first of these: E1 to E10 for what is wrong with it, E13 where there are no workers or more than 32, E12
/// where there is no such map, E11 where the input has more values than the program has cells; and for E16 where memory or a thread was
/// refused.
pub fn run_text<R: Threads + Wait + Sync, G: Gate + Sync>(
    rt: &R,
    alloc: Global,
    text: &[u8],
    input: &[i64],
    options: Options,
    gate: &G,
) -> Result<Report, Refusal>
    // The text is that of an accepted program, the input fits, and the verdict is the program's outcome on it within
    // the bound.
    ensures outcome { IfOk result (λ r. IsRunOf text.now input.now options.bound r.layout (verdict_of r.outcome)) }
    // The exchanges are those of the text's code on so many workers with that map, as many at most as the program's
    // bound where it doesn't fault.
    ensures exchanges { IfOk result (λ r. IsRunByWorkers text.now input.now options (verdict_of r.outcome) r.counts) }
    // Each of E1 to E10, E13, E12 and E11 is answered only where it holds and nothing before it in this order does.
    ensures refused { IsRunRefused text.now input.now options result }
{
    run_text_with(rt, alloc, text, input, options, None, gate)
}

/// The same by workers that take all their memory before the first exchange, for so many items of output and so many exchanges. It is
/// refused besides for E18, where nothing else speaks against it and the program's code on these workers prints more items than that,
/// those that a fault drops counted, or has more exchanges: exactly then. That E16 comes before the first exchange is tested, and no
/// clause says it.
pub fn run_text_reserved<R: Threads + Wait + Sync, G: Gate + Sync>(
    rt: &R,
    alloc: Global,
    text: &[u8],
    input: &[i64],
    options: Options,
    reserve: Reserve,
    gate: &G,
) -> Result<Report, Refusal>
    // The text is that of an accepted program, the input fits, and the verdict is the program's outcome on it within
    // the bound.
    ensures outcome { IfOk result (λ r. IsRunOf text.now input.now options.bound r.layout (verdict_of r.outcome)) }
    // The exchanges are those of the text's code on so many workers with that map, and it doesn't come past the
    // reserve.
    ensures exchanges { IfOk result (λ r. IsRunByWorkersWith text.now input.now options (Some reserve) (verdict_of r.outcome) r.counts) }
    // Each refusal is as without a reserve, or E18 where nothing else speaks against the run and it comes past the
    // reserve.
    ensures refused { IsRunRefusedWith text.now input.now options (Some reserve) result }
{
    let reserve = Some(reserve);
    run_text_with(rt, alloc, text, input, options, reserve, gate)
}
