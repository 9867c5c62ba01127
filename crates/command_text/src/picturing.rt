//! Runs of a program of which the statements are drawn.

ghost use Rattle.std.specs.Prelude.{◌≡◌, IfErr, IfOk};
ghost use Rattle.text_out.specs.Out.{with_bytes};
ghost use Rattle.command_facts.specs.Found.{EndsIn, IsOutcomeOf, cut_at, entries_of, with_outcome};
ghost use Rattle.command_text.specs.Stepped as stepped;
ghost use Rattle.command_text.specs.Texts as texts;

use crate::terminal::Terminal;
use command_facts::FoundSteps;
use command_requests::Form;
use journal::Ending;
use observing::Watch;
use pictures::stream_excerpt;
use program_texts::{Status, Stop, finish};
use std::alloc::Global;
use text_out::Out;

// Runs the program and draws the statements that are asked for. The input fits, so that a run is refused for memory alone.
fn write_excerpt_of<'a, V: Watch, O: Out>(
    alloc: Global,
    steps: &FoundSteps<'_>,
    watch: &mut V,
    out: &mut O,
) -> Result<Ending, Stop<'a>>
    requires form { steps.now.words.form ≡ Form.Picture }
    ensures ends { IfOk result (λ r. EndsIn steps.now r.bound) }
    ensures outcome { IfOk result (λ r. IsOutcomeOf (cut_at steps.now r.bound) r.outcome) }
    ensures picture { IfOk result (λ r. O.Out.state out.new ≡ with_bytes (O.Out.state out.old)
        (texts.picture_text steps.now.words (with_outcome (cut_at steps.now r.bound) r.outcome) (entries_of (cut_at steps.now r.bound)))) }
    ensures cut { IfErr result (λ why. (on : Terminal) → stepped.IsCutUpTo on steps.now (O.Out.state out.old) (O.Out.state out.new) why) }
{
    let (text, program) = (steps.loaded.source.bytes.as_slice(), &steps.loaded.program);
    let bound = steps.limit.bound;
    let (first, last) = (steps.words.from as usize, steps.words.to as usize);
    match stream_excerpt(
        alloc,
        text,
        program,
        &steps.input,
        bound,
        steps.until(),
        first,
        last,
        watch,
        out,
    ) {
        Ok(ending) => Ok(ending),
        Err(failure) => Err(Stop::from(failure)),
    }
}

/// Runs a program as long as there is time and draws the statements that are asked for.
pub(crate) fn write_as_picture<'a, V: Watch, O: Out>(
    alloc: Global,
    steps: &FoundSteps<'_>,
    watch: &mut V,
    out: &mut O,
) -> Result<Ending, Stop<'a>>
    requires form { steps.now.words.form ≡ Form.Picture }
    ensures told { (on : Terminal) → stepped.IsToldUpTo on steps.now (O.Out.state out.old) (O.Out.state out.new) result }
{
    let ending = write_excerpt_of(alloc, steps, watch, out)?;
    finish(out, Status::of(&ending.outcome))?;
    Ok(ending)
}
