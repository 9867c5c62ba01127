//! What a call writes to standard output.

ghost use Rattle.std.specs.Prelude.{◌++◌};
ghost use Rattle.text_out.specs.Out.{Writes};
ghost use Rattle.write_rules.specs.Verdict.{verdict_of};
ghost use Rattle.program_texts.specs.Shown.{shown};
ghost use Rattle.program_texts.specs.Status.{status_of};
ghost use Rattle.program_texts.specs.declared.status.Status.TheVariants.{Done};
ghost use Rattle.memory_texts.specs.Chosen.{shown_by};
ghost use Rattle.help.specs.Explained.{explanation};
ghost use Rattle.comparing.specs.Found as pairs;
ghost use Rattle.comparing.specs.ComparisonText as pair_texts;
ghost use Rattle.mpi_export.specs.Alone.{alone_text};
ghost use Rattle.mpi_export.specs.Program.{c_text};
ghost use Rattle.comparing.specs.RulesText.{comparison_text};
ghost use Rattle.superstep_listing.specs.Listing.{spelling};
ghost use Rattle.command_text.specs.Costs.{costs_text};
ghost use Rattle.command_facts.specs.Written.{Wrote};
ghost use Rattle.command_text.specs.Texts.{accepted_line, explored_text, told_of_all, version_text};

use all_inputs::{Overall, Scope, Undecided, write_overall, write_undecided};
use command_facts::{FoundOverall, FoundPair, FoundScope};
use command_requests::{CostWords, VERSION};
use comparing::{UnderRules, show_comparison, write_cells, write_comparison};
use costs::{Cost, write_cost, write_lines};
use help::{Subject, write_explanation};
use itoa::Buffer;
use memory_texts::{Choice, show_chosen};
use mpi_export::{AlonePlan, write_alone, write_program};
use pram_check::Program;
use pram_trees::Layout;
use program_texts::{Status, Stop, finish, show};
use scopes::write_findings;
use superstep_instructions::Code;
use superstep_listing::write_listing;
use text_out::{Out, WriteFault};
use write_rules::Outcome;

/// Writes an outcome, of its memory what is chosen.
pub(crate) fn write_outcome<'a, O: Out>(
    out: &mut O,
    layout: &Layout,
    outcome: &Outcome,
    choice: Choice<'_>,
) -> Result<Status, Stop<'a>>
    ensures written { Wrote (status_of outcome.now) (shown_by choice.entry layout.now (verdict_of outcome.now))
        (O.Out.state out.old) (O.Out.state out.new) result }
{
    show_chosen(layout, outcome, choice, out)?;
    finish(out, Status::of(outcome))
}

// A run's costs, as far as they are asked for.
fn write_numbers<O: Out>(
    out: &mut O,
    outcome: &Outcome,
    cost: &Cost,
    words: CostWords,
) -> Result<(), WriteFault>
    ensures written { Writes (O.Out.state out.old) (O.Out.state out.new)
        (costs_text (verdict_of outcome.now) cost.now words.schedule words.lines) result }
{
    write_cost(outcome, cost, words.schedule, out)?;
    if words.lines {
        write_lines(&cost.lines, out)
    } else {
        Ok(())
    }
}

// Those, and behind them the run's outcome.
fn write_numbers_and_outcome<O: Out>(
    out: &mut O,
    layout: &Layout,
    outcome: &Outcome,
    cost: &Cost,
    words: CostWords,
) -> Result<(), WriteFault>
    ensures written { Writes (O.Out.state out.old) (O.Out.state out.new)
        (costs_text (verdict_of outcome.now) cost.now words.schedule words.lines ++ shown layout.now (verdict_of outcome.now)) result }
{
    write_numbers(out, outcome, cost, words)?;
    show(layout, outcome, out)
}

/// Writes what a run costs, and behind that its outcome.
pub(crate) fn write_costs<'a, O: Out>(
    out: &mut O,
    layout: &Layout,
    outcome: &Outcome,
    cost: &Cost,
    words: CostWords,
) -> Result<Status, Stop<'a>>
    ensures written { Wrote (status_of outcome.now) (costs_text (verdict_of outcome.now) cost.now words.schedule words.lines
        ++ shown layout.now (verdict_of outcome.now))
        (O.Out.state out.old) (O.Out.state out.new) result }
{
    write_numbers_and_outcome(out, layout, outcome, cost, words)?;
    finish(out, Status::of(outcome))
}

/// Writes how a program comes out under each rule.
pub(crate) fn write_rules<'a, O: Out>(
    out: &mut O,
    comparison: &UnderRules,
) -> Result<Status, Stop<'a>>
    ensures written { Wrote Done (comparison_text comparison.now)
        (O.Out.state out.old) (O.Out.state out.new) result }
{
    show_comparison(comparison, out)?;
    finish(out, Status::Done)
}

/// Writes a text as it is.
pub(crate) fn write_text<'a, O: Out>(out: &mut O, text: &[u8]) -> Result<Status, Stop<'a>>
    ensures written { Wrote Done text.now (O.Out.state out.old) (O.Out.state out.new) result }
{
    out.write_all(text)?;
    finish(out, Status::Done)
}

/// Writes the listing of a program's code.
pub(crate) fn write_plan<'a, O: Out>(out: &mut O, code: &Code) -> Result<Status, Stop<'a>>
    ensures written { Wrote Done (spelling code.now)
        (O.Out.state out.old) (O.Out.state out.new) result }
{
    write_listing(code, out)?;
    finish(out, Status::Done)
}

/// Writes code as a program in C.
pub(crate) fn write_export<'a, O: Out>(out: &mut O, code: &Code) -> Result<Status, Stop<'a>>
    ensures written { Wrote Done (c_text code.now)
        (O.Out.state out.old) (O.Out.state out.new) result }
{
    write_program(code, out)?;
    finish(out, Status::Done)
}

/// Writes a plan as a program in C for one memory.
pub(crate) fn write_plain_c<'a, O: Out>(out: &mut O, plan: &AlonePlan) -> Result<Status, Stop<'a>>
    ensures written { Wrote Done (alone_text plan.now)
        (O.Out.state out.old) (O.Out.state out.new) result }
{
    write_alone(plan, out)?;
    finish(out, Status::Done)
}

fn write_explored<O: Out>(out: &mut O, explored: &FoundScope) -> Result<(), WriteFault>
    ensures written { Writes (O.Out.state out.old) (O.Out.state out.new) (explored_text explored.now) result }
{
    write_cells(out, explored.drawn)?;
    write_findings(
        out,
        explored.program.layout(),
        &explored.specification,
        &explored.findings,
    )
}

/// Writes what is found on the inputs of a scope, or on some that are drawn, and ends with that status.
pub(crate) fn write_exploration<'a, O: Out>(
    out: &mut O,
    explored: &FoundScope,
    status: Status,
) -> Result<Status, Stop<'a>>
    ensures written { Wrote status (explored_text explored.now)
        (O.Out.state out.old) (O.Out.state out.new) result }
{
    write_explored(out, explored)?;
    finish(out, status)
}

fn write_told<O: Out>(
    out: &mut O,
    layout: &Layout,
    scope: Scope,
    told: &Result<Overall, Undecided>,
) -> Result<(), WriteFault>
    ensures written { Writes (O.Out.state out.old) (O.Out.state out.new) (told_of_all layout.now scope told.now) result }
{
    match told {
        Ok(overall) => write_overall(out, layout, scope, overall),
        Err(why) => write_undecided(out, scope, *why),
    }
}

/// Writes what is told of all inputs of a scope together, and ends with that status.
pub(crate) fn write_survey<'a, O: Out>(
    out: &mut O,
    found: &FoundOverall,
    status: Status,
) -> Result<Status, Stop<'a>>
    ensures written { Wrote status (told_of_all found.now.program.layout found.now.scope found.now.told)
        (O.Out.state out.old) (O.Out.state out.new) result }
{
    write_told(out, found.program.layout(), found.scope, &found.told)?;
    finish(out, status)
}

/// Writes what is found of two programs on the same inputs, and ends with that status.
pub(crate) fn write_pair<'a, O: Out>(
    out: &mut O,
    pair: &FoundPair,
    status: Status,
) -> Result<Status, Stop<'a>>
    ensures written { Wrote status
        (pair_texts.comparison_text pair.now.first.layout pair.now.second.layout pair.now.precondition pair.now.drawn
        (pairs.found_is pair.now.comparison))
        (O.Out.state out.old) (O.Out.state out.new) result }
{
    let (first, second) = (pair.first.layout(), pair.second.layout());
    write_comparison(
        out,
        first,
        second,
        &pair.precondition,
        pair.drawn,
        &pair.comparison,
    )?;
    finish(out, status)
}

/// Writes what there is to say of a subject.
pub(crate) fn write_subject<'a, O: Out>(out: &mut O, subject: Subject) -> Result<Status, Stop<'a>>
    ensures written { Wrote Done (explanation subject)
        (O.Out.state out.old) (O.Out.state out.new) result }
{
    write_explanation(out, subject)?;
    finish(out, Status::Done)
}

/// Writes the version.
pub(crate) fn write_version<'a, O: Out>(out: &mut O) -> Result<Status, Stop<'a>>
    ensures written { Wrote Done version_text
        (O.Out.state out.old) (O.Out.state out.new) result }
{
    write_version_line(out)?;
    finish(out, Status::Done)
}

fn write_version_line<O: Out>(out: &mut O) -> Result<(), WriteFault>
    ensures written { Writes (O.Out.state out.old) (O.Out.state out.new) version_text result }
{
    out.write_parts(&[b"pramc ", VERSION.as_bytes(), b"\n"])
}

/// Writes that a program is accepted.
pub(crate) fn write_accepted<'a, O: Out>(out: &mut O, program: &Program) -> Result<Status, Stop<'a>>
    ensures written { Wrote Done (accepted_line program.now)
        (O.Out.state out.old) (O.Out.state out.new) result }
{
    write_accepted_line(out, program)?;
    finish(out, Status::Done)
}

fn write_accepted_line<O: Out>(out: &mut O, program: &Program) -> Result<(), WriteFault>
    ensures written { Writes (O.Out.state out.old) (O.Out.state out.new) (accepted_line program.now) result }
{
    let mut cells = Buffer::new();
    let mut procs = Buffer::new();
    out.write_parts(&[
        b"accepted cells ",
        cells.format(program.layout().cells()).as_bytes(),
        b" procs ",
        procs.format(program.procs()).as_bytes(),
        b" rule ",
        program.rule().word().as_bytes(),
        b"\n",
    ])
}
