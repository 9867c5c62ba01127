//! What is drawn of a run.

ghost use Rattle.std.specs.Prelude.{◌≡◌, IfOk, List, ℕ};
ghost use Rattle.pram_model.specs.Layout.{SharedEntry};
ghost use Rattle.write_rules.specs.Verdict.{verdict_of};
ghost use Rattle.pram_meaning.specs.Outcome.{IsOutcome};
ghost use Rattle.journal.specs.InTime.{EndsBy};
ghost use Rattle.journal.specs.RunEntries.{run_entries};
ghost use Rattle.pictures.specs.declared.flows.spans.CellSpan.{CellSpan};
ghost use Rattle.pictures.specs.Flows.Asides.{asides_in};
ghost use Rattle.pictures.specs.Flows.Drawing.{drawing_is};
ghost use Rattle.pictures.specs.Flows.Picture.{flow, picture};

use crate::flows::taker::Taker;
use crate::{Drawing, Flow};
use journal::{Ending, tell_in_time};
use observing::Watch;
use pram_check::Program;
use std::alloc::{AllocError, Global};

/// Runs a program on an input that fits, for at most `bound` statements, as long as there is time, and takes what is drawn of the
/// statements whose numbers, counted from 1, go from one to another. `AllocError`: memory was refused.
pub(crate) fn draw_run<V: Watch>(
    alloc: Global,
    program: &Program,
    input: &[i64],
    bound: u32,
    until: Option<u64>,
    from: usize,
    to: usize,
    watch: &mut V,
) -> Result<(Ending, Drawing), AllocError>
    ensures outcome { IfOk result (λ r. IsOutcome program.now input.now r.0.bound (verdict_of r.0.outcome)) }
    ensures ends { IfOk result (λ r. EndsBy until bound r.0.bound) }
    ensures drawn { IfOk result (λ r. (layout : List SharedEntry) (text : List ℕ) (only : List CellSpan) →
        picture layout text only (drawing_is r.1)
        ≡ flow layout text (asides_in program.now.body) input.now (run_entries program.now input.now r.0.bound) only from to) }
{
    let flow = Flow::new(alloc, from, to, input)?;
    let taker = Taker {
        alloc,
        program,
        flow,
    };
    let (taker, done) = tell_in_time(alloc, program, input, bound, until, taker, watch);
    match done {
        Ok(ending) => {
            let drawing = taker.flow.finish()?;
            Ok((ending, drawing))
        }
        Err(_) => Err(AllocError),
    }
}
