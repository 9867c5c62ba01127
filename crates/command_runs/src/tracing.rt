//! The exchanges of a run, with what is told beside their counts.

ghost use Rattle.std.specs.Prelude.{◌≡◌, IfOk, true};
ghost use Rattle.write_rules.specs.Verdict.{verdict_of};
ghost use Rattle.command_facts.specs.Found.{ending_text};
ghost use Rattle.command_runs.specs.Runs.{AreLinesAsked};

use command_facts::{FoundTrace, text_of_end};
use exchange_counts::Counts;
use flat_run::flat_lines;
use pram_check::Program;
use program_runs::compile_program;
use std::alloc::{AllocError, Global};
use write_rules::Outcome;

// The line of the statement that each exchange of the program's code serves: the code is run on one memory for them.
fn lines_of(
    alloc: Global,
    program: &Program,
    input: &[i64],
    bound: u32,
) -> Result<Vec<u32>, AllocError>
    ensures { IfOk result (λ lines. AreLinesAsked true program.now input.now bound lines.items) }
{
    let code = compile_program(alloc, program)?;
    flat_lines(alloc, code.code(), input, bound)
}

// The same where it is asked for, and nothing else.
fn lines_asked(
    alloc: Global,
    asked: bool,
    program: &Program,
    input: &[i64],
    bound: u32,
) -> Result<Vec<u32>, AllocError>
    ensures { IfOk result (λ lines. AreLinesAsked asked program.now input.now bound lines.items) }
{
    if asked {
        lines_of(alloc, program, input, bound)
    } else {
        Ok(Vec::new(alloc))
    }
}

/// The exchanges of a run that came out so within a bound, with their lines if these are asked for.
pub(crate) fn trace_of(
    alloc: Global,
    program: &Program,
    input: &[i64],
    asked: bool,
    bound: u32,
    outcome: &Outcome,
    counts: Counts,
) -> Result<FoundTrace, AllocError>
    ensures counts { IfOk result (λ t. t.counts ≡ counts) }
    ensures lines { IfOk result (λ t. AreLinesAsked asked program.now input.now bound t.lines.items) }
    ensures ends { IfOk result (λ t. t.ends.items ≡ ending_text program.now.layout (verdict_of outcome.now)) }
{
    let lines = lines_asked(alloc, asked, program, input, bound)?;
    let ends = text_of_end(alloc, program.layout(), outcome)?;
    Ok(FoundTrace {
        counts,
        lines,
        ends,
    })
}
