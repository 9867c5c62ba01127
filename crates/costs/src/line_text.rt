//! The text of what lines cost.
ghost use Rattle.text_out.specs.Out.{Writes};
ghost use Rattle.costs.specs.CostText as spec;

use crate::LineCost;
use itoa::Buffer;
use text_out::{Out, WriteFault};

// What one line costs.
fn write_line<W: Out>(out: &mut W, cost: &LineCost) -> Result<(), WriteFault>
    ensures written { Writes (W.Out.state out.old) (W.Out.state out.new) (spec.line_text cost.now) result }
{
    let mut line = Buffer::new();
    let mut times = Buffer::new();
    let mut work = Buffer::new();
    let mut reads = Buffer::new();
    let mut writes = Buffer::new();
    out.write_parts(&[
        b"line ",
        line.format(cost.line).as_bytes(),
        b" times ",
        times.format(cost.times).as_bytes(),
        b" work ",
        work.format(cost.work).as_bytes(),
        b" reads ",
        reads.format(cost.reads).as_bytes(),
        b" writes ",
        writes.format(cost.writes).as_bytes(),
        b"\n",
    ])
}

/// Writes what each of these lines costs, as `line 4 times 2 work 9 reads 8 writes 8`. The error is
/// that the writer failed (E17).
pub fn write_lines<W: Out>(lines: &[LineCost], out: &mut W) -> Result<(), WriteFault>
    // Exactly the text of these lines' costs is written, or a beginning of it and then a failure.
    ensures written { Writes (W.Out.state out.old) (W.Out.state out.new) (spec.lines_text lines.now) result }
{
    for cost in lines {
        write_line(out, cost)?;
    }
    Ok(())
}
