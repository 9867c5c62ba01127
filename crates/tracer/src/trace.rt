//! The trace of a run.
ghost use Rattle.text_out.specs.Out.{Writes};
ghost use Rattle.tracer.specs.Traced.{trace_text};

use crate::exchange_line::{line_of, write_exchange};
use exchange_counts::Counts;
use text_out::{Out, WriteFault};

/// Writes the trace of a run: a line for each exchange, as `2 reply sent 2 1 received 1 2 h 2`. That is the exchange's number from 1, what
/// it was for (`send`, `reply`, `vote` or `close`), how many words each worker sent and received, in order of workers, and the greatest of
/// these; and behind it ` line 7` where `lines` has one for it, the line of the statement that the exchange serves. `WriteFault` (E17) says
/// that the writer failed; what it took is a beginning of the trace.
pub fn write_trace<W: Out>(counts: &Counts, lines: &[u32], out: &mut W) -> Result<(), WriteFault>
    // The trace is written, a line for each exchange with the statement's line where one is given, or a beginning of it
    // where the writer fails.
    ensures written { Writes (W.Out.state out.old) (W.Out.state out.new) (trace_text lines.now counts.now) result }
{
    'exchanges: for i in 0..counts.len() {
        write_exchange(counts, i + 1, line_of(lines, i + 1), out)?;
    }
    Ok(())
}
