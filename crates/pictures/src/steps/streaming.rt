//! The picture of a run's statements, drawn when the run is over.

ghost use Rattle.std.specs.Prelude.{◌≡◌, ◌↔◌, ◌<◌, ◌≤◌, IfOk, OnOk, length};
ghost use Rattle.pram_model.specs.Layout.{total_size};
ghost use Rattle.write_rules.specs.Verdict.{verdict_of};
ghost use Rattle.pram_meaning.specs.Outcome.{IsOutcome};
ghost use Rattle.journal.specs.InTime.{EndsBy};
ghost use Rattle.pictures.specs.Steps.Picture as spec;
ghost use Rattle.pictures.specs.Steps.Streamed.{HasStreamedExcerpt};

use crate::steps::frame::Part;
use crate::steps::kept_run::keep_run;
use crate::steps::picture::write_part;
use journal::Ending;
use observing::Watch;
use pram_check::Program;
use std::alloc::Global;
use step_text::StreamFailure;
use text_out::Out;

fn part_of(from: usize, whole: usize) -> Part
    ensures { result ≡ spec.part_of from whole }
{
    Part {
        skipped: from.saturating_sub(1),
        whole,
    }
}

/// Runs a program on an input, for at most `bound` statements, as long as there is time, and writes the picture of the statements whose
/// numbers, counted from 1, go from one to another, as SVG 1.1, by the program's text: a column for each statement, in bands of 16, with
/// its line of the program, its number in the run and the line's, and a row for each index that acts, below one for the processor outside
/// pardo. A processor that acts has a box, with a mark where it reads shared cells and one where it writes one, and says which where it is
/// pointed at; those that met at a fault are outlined, and the fault and who met stands below the bands. Where statements stand before or
/// behind those that are asked for, the picture says which of how many it is of. Of more than 112 statements the first 96 and the last 16
/// are drawn, and of more than 64 indices those that met and the first others have rows; the picture says how many statements are left
/// out, and below each column how many more act.
///
/// The picture is written when the run is over; beside the run it takes the memory of the statements that are drawn, however many there
/// are. The watch is told how far the run is.
/// - `InputTooLong` (E11): there are more values than cells, and nothing was written.
/// - `OutOfMemory` (E16): memory was refused, and nothing was written.
/// - `WriteFailed` (E17): the writer failed; what it took is a beginning of the picture.
pub fn stream_excerpt<W: Out, V: Watch>(
    alloc: Global,
    text: &[u8],
    program: &Program,
    input: &[i64],
    bound: u32,
    until: Option<u64>,
    from: usize,
    to: usize,
    watch: &mut V,
    out: &mut W,
) -> Result<Ending, StreamFailure>
    // The outcome is that of the program on the input within the bound at which the run ends.
    ensures outcome { IfOk result (λ r. IsOutcome program.now input.now r.bound (verdict_of r.outcome)) }
    // That is the bound that is asked for, and with a time no more.
    ensures ends { IfOk result (λ r. EndsBy until bound r.bound) }
    // An input that is run has no more values than the program has cells.
    ensures fits { OnOk result (length input.now ≤ total_size program.now.layout) }
    // The input is refused as too long exactly where it has more values than the program has cells.
    ensures too_long { (result ≡ Err StreamFailure.InputTooLong) ↔ (total_size program.now.layout < length input.now) }
    // Exactly the defined picture of this part of the run is written, by the program's text, or a beginning of it and
    // then a failure; nothing where memory is refused.
    ensures written { HasStreamedExcerpt text.now program.now input.now until bound from to
        (W.Out.state out.old) (W.Out.state out.new) result }
{
    if input.len() > program.layout().cells() as usize {
        return Err(StreamFailure::InputTooLong);
    }
    let Ok((ending, keeper)) = keep_run(alloc, program, input, bound, until, from, to, watch) else {
        return Err(StreamFailure::OutOfMemory);
    };
    let part = part_of(from, keeper.count);
    match write_part(out, program.layout(), text, part, &keeper.excerpt) {
        Ok(()) => Ok(ending),
        Err(_) => Err(StreamFailure::WriteFailed),
    }
}
