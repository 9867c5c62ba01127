//! The steps of a run as lines of JSON, written as it goes.

ghost use Rattle.std.specs.Prelude.{◌≡◌, ◌↔◌, ◌<◌, ◌≤◌, [], IfOk, OnOk, length};
ghost use Rattle.pram_model.specs.Layout.{total_size};
ghost use Rattle.text_out.specs.Printing.{printing};
ghost use Rattle.write_rules.specs.Verdict.{verdict_of};
ghost use Rattle.pram_meaning.specs.Outcome.{IsOutcome};
ghost use Rattle.journal.specs.InTime.{EndsBy};
ghost use Rattle.journal.specs.RunEntries.{run_entries};
ghost use Rattle.json_texts.specs.StepFacts.{steps_from};
ghost use Rattle.json_texts.specs.Streamed.{HasStreamedJson};
ghost use Rattle.json_texts.specs.Streams.{PrintsFirst, Streams};

use crate::asked::Asked;
use crate::stream::Stream;
use journal::{Ending, tell_in_time};
use observing::Watch;
use pram_check::Program;
use pram_meaning::MeaningRefusal;
use std::alloc::Global;
use step_text::StreamFailure;
use text_out::Out;

// The run, told to a stream, which comes back; what it comes to goes into `done`.
fn run_into<'a, W: Out, V: Watch>(
    alloc: Global,
    program: &Program,
    input: &[i64],
    bound: u32,
    until: Option<u64>,
    stream: Stream<'a, W>,
    watch: &mut V,
    done: &mut Result<Ending, MeaningRefusal>,
) -> Stream<'a, W>
    ensures same_out { result.out.ghost_name ≡ stream.entry.out.ghost_name }
    ensures outcome { IfOk done.new (λ r. IsOutcome program.now input.now r.bound (verdict_of r.outcome)) }
    ensures ends { IfOk done.new (λ r. EndsBy until bound r.bound) }
    ensures fits { OnOk done.new (length input.now ≤ total_size program.now.layout) }
    ensures too_long { (done.new ≡ Err MeaningRefusal.InputTooLong) ↔ (total_size program.now.layout < length input.now) }
    ensures told { IfOk done.new (λ r. Streams stream.entry.asked stream.entry.count result.count
        (printing (W.Out.state stream.entry.out.now) stream.entry.failed) (printing (W.Out.state result.out.now) result.failed)
        (run_entries program.now input.now r.bound)) }
    ensures part { done.new ≡ Err MeaningRefusal.OutOfMemory → PrintsFirst stream.entry.asked stream.entry.count
        (printing (W.Out.state stream.entry.out.now) stream.entry.failed) (printing (W.Out.state result.out.now) result.failed)
        (run_entries program.now input.now bound) }
    ensures untold { done.new ≡ Err MeaningRefusal.InputTooLong → Streams stream.entry.asked stream.entry.count result.count
        (printing (W.Out.state stream.entry.out.now) stream.entry.failed) (printing (W.Out.state result.out.now) result.failed) [] }
{
    let (stream, ending) = tell_in_time(alloc, program, input, bound, until, stream, watch);
    *done = ending;
    stream
}

/// Runs a program on an input, for at most `bound` statements, and writes each entry whose number, counted from 1, goes from `first` to
/// `last` as soon as its statement has run, as a line of JSON, as [`json_step`](crate::json_step) makes it. No entry
/// is kept, and a line no longer than it takes to write it: beside the run it takes the memory of one statement. Behind `last` no more
/// entries are made, and the run goes on to its outcome; the watch is told how far it is. `source` is the text that was read as the
/// program, in which statements have their columns.
///
/// E11 where there are more values than cells, and then nothing is written; E17 where the writer failed, which ends the run; E16 only where
/// memory was refused, behind the lines of the statements before.
pub fn stream_json<W: Out, V: Watch>(
    alloc: Global,
    program: &Program,
    source: &[u8],
    input: &[i64],
    bound: u32,
    until: Option<u64>,
    first: usize,
    last: usize,
    watch: &mut V,
    out: &mut W,
) -> Result<Ending, StreamFailure>
    // The outcome is that of the program on the input within the bound at which the run ends.
    ensures outcome { IfOk result (λ r. IsOutcome program.now input.now r.bound (verdict_of r.outcome)) }
    // That is the bound that is asked for, and with a time no more.
    ensures ends { IfOk result (λ r. EndsBy until bound r.bound) }
    // An input that is run has no more values than the program has cells.
    ensures fits { OnOk result (length input.now ≤ total_size program.now.layout) }
    // The input is refused as too long exactly where it has more values than the program has cells.
    ensures too_long { (result ≡ Err StreamFailure.InputTooLong) ↔ (total_size program.now.layout < length input.now) }
    // Lines of JSON that say just the entries' facts are written; of some first entries a beginning where the writer
    // failed, whole lines where memory was refused.
    ensures written { HasStreamedJson (W.Out.state out.old) (W.Out.state out.new)
        (steps_from program.now.layout program.now.tree source.now first last 1) (run_entries program.now input.now) bound result }
{
    let asked = Asked {
        layout: program.layout(),
        tree: program.tree(),
        source,
        first,
        last,
    };
    let stream = Stream {
        alloc,
        asked,
        out,
        count: 0,
        failed: false,
    };
    let mut done = Err(MeaningRefusal::OutOfMemory);
    let stream = run_into(
        alloc, program, input, bound, until, stream, watch, &mut done,
    );
    let Stream { failed, .. } = stream;
    match done {
        Ok(ending) => Ok(ending),
        Err(MeaningRefusal::InputTooLong) => Err(StreamFailure::InputTooLong),
        Err(MeaningRefusal::OutOfMemory) => {
            if failed {
                Err(StreamFailure::WriteFailed)
            } else {
                Err(StreamFailure::OutOfMemory)
            }
        }
    }
}
