//! The picture of what passes through shared memory in a run, drawn as the run goes.

ghost use Rattle.std.specs.Prelude.{◌≡◌, ◌↔◌, ◌<◌, ◌≤◌, IfOk, OnOk, length};
ghost use Rattle.pram_model.specs.Layout.{total_size};
ghost use Rattle.write_rules.specs.Verdict.{verdict_of};
ghost use Rattle.pram_meaning.specs.Outcome.{IsOutcome};
ghost use Rattle.journal.specs.InTime.{EndsBy};
ghost use Rattle.pictures.specs.Flows.Streamed.{HasStreamedFlow};

use crate::flows::drawn_run::draw_run;
use crate::{CellSpan, write_flow};
use journal::Ending;
use observing::Watch;
use pram_check::Program;
use std::alloc::Global;
use step_text::StreamFailure;
use text_out::Out;

/// Runs a program on an input, for at most `bound` statements, as long as there is time, and writes the picture of what passes through
/// shared memory in the statements whose numbers, counted from 1, go from one to another; `text` is what was read as the program. Where `only` has the cells of
/// some declarations, no others have a row. The picture is written when the run is over; beside the run it takes the memory of the run's
/// cells, twice, and of the statements that are drawn, however many there are. The watch is told how far the run is, and the
/// outcome is the answer, with the bound at which the run ends.
/// - `InputTooLong` (E11): there are more values than cells, and nothing was written.
/// - `OutOfMemory` (E16): memory was refused, and nothing was written.
/// - `WriteFailed` (E17): the writer failed; what it took is a beginning of the picture.
pub fn stream_flow<W: Out, V: Watch>(
    alloc: Global,
    text: &[u8],
    program: &Program,
    input: &[i64],
    bound: u32,
    until: Option<u64>,
    only: &[CellSpan],
    from: usize,
    to: usize,
    watch: &mut V,
    out: &mut W,
) -> Result<Ending, StreamFailure>
    // The outcome is that of the program on the input within the bound at which the run ends.
    ensures outcome { IfOk result (λ r. IsOutcome program.now input.now r.bound (verdict_of r.outcome)) }
    // That is the bound that is asked for, and with a time no more.
    ensures ends { IfOk result (λ r. EndsBy until bound r.bound) }
    // An input that is run has no more values than the program has cells.
    ensures fits { OnOk result (length input.now ≤ total_size program.now.layout) }
    // The input is refused as too long exactly where it has more values than the program has cells.
    ensures too_long { (result ≡ Err StreamFailure.InputTooLong) ↔ (total_size program.now.layout < length input.now) }
    // Exactly the defined picture of the flow of data in this run is written, or a beginning of it and then a failure;
    // nothing where memory is refused.
    ensures written { HasStreamedFlow text.now program.now input.now until bound only.now from to
        (W.Out.state out.old) (W.Out.state out.new) result }
{
    if input.len() > program.layout().cells() as usize {
        return Err(StreamFailure::InputTooLong);
    }
    let Ok((ending, drawing)) = draw_run(alloc, program, input, bound, until, from, to, watch)
    else {
        return Err(StreamFailure::OutOfMemory);
    };
    match write_flow(out, program.layout(), text, only, &drawing) {
        Ok(()) => Ok(ending),
        Err(_) => Err(StreamFailure::WriteFailed),
    }
}
