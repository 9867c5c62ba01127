//! Runs of a program that are told statement by statement: in words as they go, drawn, or as a page.

ghost use Rattle.std.specs.Prelude.{◌≡◌, IfErr, IfOk};
ghost use Rattle.text_out.specs.Out.{with_bytes};
ghost use Rattle.write_rules.specs.Verdict.{verdict_of};
ghost use Rattle.command_facts.specs.Found.{EndsIn, IsOutcomeOf, cut_at, entries_of};
ghost use Rattle.command_facts.specs.Written.{Wrote};
ghost use Rattle.program_texts.specs.Shown.{shown};
ghost use Rattle.program_texts.specs.Status.{status_of};
ghost use Rattle.command_text.specs.Stepped as stepped;
ghost use Rattle.command_text.specs.Steps as spec;

use crate::flowing::write_as_flow;
use crate::paging::write_as_page;
use crate::picturing::write_as_picture;
use crate::terminal::Terminal;
use command_facts::{FoundRun, FoundSteps};
use command_requests::{Form, StepWords};
use journal::Ending;
use memory_texts::Choice;
use observing::Watch;
use pram_check::Program;
use pram_trees::{Layout, Tree};
use program_texts::{Status, Stop, finish, show};
use std::alloc::Global;
use step_text::{Detail, Focus, Manner, Telling, stream_steps};
use text_out::Out;
use write_rules::Outcome;

// How entries are written on these streams.
fn manner_of<'t>(on: Terminal, text: &'t [u8]) -> Manner<'t>
    ensures { spec.IsManner on text.now result }
{
    if on.output {
        Manner::OnTerminal {
            text,
            colours: on.colours,
        }
    } else {
        Manner::Plain
    }
}

// Whether variables and locals are told: where that is asked for, or names are that they may bear.
fn tells_locals(words: StepWords<'_>) -> bool
    ensures { result ≡ spec.tells_locals words.entry }
{
    words.locals || matches!(words.only, Choice::Named(_))
}

// The tree by whose names they are told.
fn names_of<'t>(locals: bool, tree: &'t Tree) -> Option<&'t Tree>
    ensures { spec.AreNames locals tree.now result }
{
    if locals { Some(tree) } else { None }
}

// The text of which columns are told, where these are asked for.
fn columns_of<'t>(columns: bool, sized: &'t [u8]) -> Option<&'t [u8]>
    ensures { spec.AreColumns columns sized.now result }
{
    if columns { Some(sized) } else { None }
}

// What is told of each entry.
fn detail_of<'t>(words: StepWords<'_>, sized: &'t [u8], tree: &'t Tree) -> Detail<'t>
    ensures { spec.IsDetail words.entry sized.now tree.now result }
{
    Detail {
        locals: names_of(tells_locals(words), tree),
        columns: columns_of(words.columns, sized),
    }
}

// What of each is looked at.
fn focus_of<'t>(words: StepWords<'t>, program: &'t Program) -> Focus<'t>
    ensures { spec.IsFocus words.entry program.now result }
{
    Focus {
        names: words.only,
        layout: program.layout(),
        tree: program.tree(),
        at_faults: words.locals,
    }
}

// How entries are written, beside this text, and what is told of each.
fn telling_of<'t>(
    on: Terminal,
    words: StepWords<'t>,
    text: &'t [u8],
    sized: &'t [u8],
    program: &'t Program,
) -> Telling<'t>
    ensures { spec.IsTelling on words.entry text.now sized.now program.now result }
{
    Telling {
        manner: manner_of(on, text),
        detail: detail_of(words, sized, program.tree()),
        focus: focus_of(words, program),
    }
}

// Runs the program and writes each statement that is asked for as soon as it has run. The input fits, so that a run is refused for memory
// alone.
fn stream_lines<'a, V: Watch, O: Out>(
    alloc: Global,
    steps: &FoundSteps<'_>,
    telling: &Telling<'_>,
    watch: &mut V,
    out: &mut O,
) -> Result<Ending, Stop<'a>>
    ensures ends { IfOk result (λ r. EndsIn steps.now r.bound) }
    ensures outcome { IfOk result (λ r. IsOutcomeOf (cut_at steps.now r.bound) r.outcome) }
    ensures lines { IfOk result (λ r. O.Out.state out.new
        ≡ with_bytes (O.Out.state out.old) (stepped.lines_of steps.now telling.now (entries_of (cut_at steps.now r.bound)))) }
    ensures cut { IfErr result (stepped.IsCutIn steps.now telling.now (O.Out.state out.old) (O.Out.state out.new)) }
{
    let (program, bound) = (&steps.loaded.program, steps.limit.bound);
    let (first, last) = (steps.words.from as usize, steps.words.to as usize);
    match stream_steps(
        alloc,
        program,
        &steps.input,
        bound,
        steps.until(),
        telling,
        first,
        last,
        watch,
        out,
    ) {
        Ok(ending) => Ok(ending),
        Err(failure) => Err(Stop::from(failure)),
    }
}

// The outcome, behind the lines.
fn write_ending<'a, O: Out>(
    layout: &Layout,
    outcome: &Outcome,
    out: &mut O,
) -> Result<Status, Stop<'a>>
    ensures written { Wrote (status_of outcome.now) (shown layout.now (verdict_of outcome.now))
        (O.Out.state out.old) (O.Out.state out.new) result }
{
    show(layout, outcome, out)?;
    finish(out, Status::of(outcome))
}

// In words, and behind them the outcome.
fn write_in_words<'a, V: Watch, O: Out>(
    alloc: Global,
    on: Terminal,
    steps: &FoundSteps<'_>,
    watch: &mut V,
    out: &mut O,
) -> Result<Ending, Stop<'a>>
    requires form { steps.now.words.form ≡ Form.Words }
    ensures told { stepped.IsToldUpTo on steps.now (O.Out.state out.old) (O.Out.state out.new) result }
{
    let text = steps.loaded.source.bytes.as_slice();
    let sized = steps.loaded.source.text();
    let telling = telling_of(on, steps.words, text, sized, &steps.loaded.program);
    let ending = stream_lines(alloc, steps, &telling, watch, out)?;
    write_ending(steps.loaded.program.layout(), &ending.outcome, out)?;
    Ok(ending)
}

// In the form that is asked for, as long as there is time.
fn write_in_time<'a, V: Watch, O: Out>(
    alloc: Global,
    on: Terminal,
    steps: &FoundSteps<'_>,
    watch: &mut V,
    out: &mut O,
) -> Result<Ending, Stop<'a>>
    ensures told { stepped.IsToldUpTo on steps.now (O.Out.state out.old) (O.Out.state out.new) result }
{
    match steps.words.form {
        Form::Words => write_in_words(alloc, on, steps, watch, out),
        Form::Picture => write_as_picture(alloc, steps, watch, out),
        Form::Flow => write_as_flow(alloc, steps, watch, out),
        Form::Page => write_as_page(alloc, steps, watch, out),
    }
}

/// Runs a program and tells it statement by statement, in words as it runs, drawn, or as a page; and answers the run with what it came to.
/// Where its seconds are over it ends where it is.
///
/// In words a line is written as soon as its statement has run, and none is kept; of a picture the statements that are drawn are kept; of a
/// page no more than the lines that could stand in it. The watch is told how far the run is. E17 where the writer failed, E16 where memory
/// was refused.
pub(crate) fn write_stepped<'a, 'b, V: Watch, O: Out>(
    alloc: Global,
    on: Terminal,
    steps: FoundSteps<'b>,
    watch: &mut V,
    out: &mut O,
) -> Result<FoundRun<'b>, Stop<'a>>
    ensures told { stepped.IsToldInTime on steps.entry (O.Out.state out.old) (O.Out.state out.new) result }
{
    let ending = write_in_time(alloc, on, &steps, watch, out)?;
    Ok(steps.cut_at(ending.bound).with_outcome(ending.outcome))
}
