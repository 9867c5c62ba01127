//! Runs of a program that are told as a page.

ghost use Rattle.std.specs.Prelude.{◌≡◌, IfErr, IfOk};
ghost use Rattle.command_facts.specs.Found.{EndsIn, IsOutcomeOf, cut_at};
ghost use Rattle.command_text.specs.Stepped as stepped;

use crate::terminal::Terminal;
use command_facts::FoundSteps;
use command_requests::Form;
use journal::Ending;
use observing::Watch;
use pages::stream_page;
use program_texts::{Status, Stop, finish};
use std::alloc::Global;
use text_out::Out;

// Runs the program and writes the page of the statements that are asked for. The input fits, so that a run is refused for memory alone.
fn write_page_of<'a, V: Watch, O: Out>(
    alloc: Global,
    steps: &FoundSteps<'_>,
    watch: &mut V,
    out: &mut O,
) -> Result<Ending, Stop<'a>>
    requires form { steps.now.words.form ≡ Form.Page }
    ensures ends { IfOk result (λ r. EndsIn steps.now r.bound) }
    ensures outcome { IfOk result (λ r. IsOutcomeOf (cut_at steps.now r.bound) r.outcome) }
    ensures page { IfOk result (λ r. stepped.IsPageTaken (cut_at steps.now r.bound) (O.Out.state out.old) (O.Out.state out.new) r.outcome) }
    ensures cut { IfErr result (λ why. (on : Terminal) → stepped.IsCutUpTo on steps.now (O.Out.state out.old) (O.Out.state out.new) why) }
{
    let (source, program) = (&steps.loaded.source, &steps.loaded.program);
    let bound = steps.limit.bound;
    let (first, last) = (steps.words.from as usize, steps.words.to as usize);
    match stream_page(
        alloc,
        source.name.as_bytes(),
        source.text(),
        program,
        &steps.input,
        bound,
        steps.until(),
        first,
        last,
        watch,
        out,
    ) {
        Ok(ending) => Ok(ending),
        Err(failure) => Err(Stop::from(failure)),
    }
}

/// Runs a program as long as there is time and writes the run as a page, of the statements that are asked for.
pub(crate) fn write_as_page<'a, V: Watch, O: Out>(
    alloc: Global,
    steps: &FoundSteps<'_>,
    watch: &mut V,
    out: &mut O,
) -> Result<Ending, Stop<'a>>
    requires form { steps.now.words.form ≡ Form.Page }
    ensures told { (on : Terminal) → stepped.IsToldUpTo on steps.now (O.Out.state out.old) (O.Out.state out.new) result }
{
    let ending = write_page_of(alloc, steps, watch, out)?;
    finish(out, Status::of(&ending.outcome))?;
    Ok(ending)
}
