//! The text of an outcome.

ghost use Rattle.std.specs.Prelude.{◌≡◌, ◌++◌, codes};
ghost use Rattle.std.specs.Fmt.{decimal};
ghost use Rattle.text_out.specs.Out.{Writes};
ghost use Rattle.write_rules.specs.Verdict.{Ended, Faulted, verdict_of};
ghost use Rattle.program_texts.specs.Shown as shown;

use crate::show_parts::{write_cell, write_items, write_memory};
use itoa::Buffer;
use pram_trees::Layout;
use pram_values::{Kind, Place};
use text_out::{Out, WriteFault};
use write_rules::{Fault, Outcome};

/// Writes the text of an outcome: each output item in decimal on a line, and then how the run came
/// out. At its end that is `ended` and a line for each shared declaration with the values of its
/// cells, as `s = 7` or `a[1..4] = 4 3 2 1`; at a fault a line as `fault read-conflict a[1] line 4`;
/// and `goes on` where the bound was met. The error is that the writer failed (E17).
pub fn show<W: Out>(layout: &Layout, outcome: &Outcome, out: &mut W) -> Result<(), WriteFault>
    // The outcome's text is written, or a beginning before the writer failed: each output item, then every cell's
    // value, or the fault's kind, place and line, or `goes on`.
    ensures written { Writes (W.Out.state out.old) (W.Out.state out.new) (shown.shown layout.now (verdict_of outcome.now)) result }
{
    match outcome {
        Outcome::Ended { output, memory } => show_end(layout, output, memory, out),
        Outcome::Faulted { fault, output } => show_fault(layout, output, fault, out),
        Outcome::GoesOn { output } => show_front(output, out),
    }
}

fn show_end<W: Out>(
    layout: &Layout,
    output: &[i64],
    memory: &[i64],
    out: &mut W,
) -> Result<(), WriteFault>
    ensures written { Writes (W.Out.state out.old) (W.Out.state out.new) (shown.shown layout.now (Ended output.now memory.now)) result }
{
    write_items(out, output)?;
    out.write_all(b"ended\n")?;
    write_memory(out, layout, memory)
}

fn show_fault<W: Out>(
    layout: &Layout,
    output: &[i64],
    fault: &Fault,
    out: &mut W,
) -> Result<(), WriteFault>
    ensures written { Writes (W.Out.state out.old) (W.Out.state out.new) (shown.shown layout.now (Faulted fault.now output.now)) result }
{
    write_items(out, output)?;
    write_fault(out, layout, fault)
}

fn show_front<W: Out>(output: &[i64], out: &mut W) -> Result<(), WriteFault>
    ensures written { Writes (W.Out.state out.old) (W.Out.state out.new)
        (shown.item_lines output.now ++ shown.line (codes "goes on")) result }
{
    write_items(out, output)?;
    out.write_all(b"goes on\n")
}

/// Writes the line of a fault, as `fault read-conflict a[1] line 4`. The error is that the writer
/// failed (E17).
pub fn write_fault<W: Out>(out: &mut W, layout: &Layout, fault: &Fault) -> Result<(), WriteFault>
    ensures written { Writes (W.Out.state out.old) (W.Out.state out.new) (shown.line (shown.fault_text layout.now fault.now)) result }
{
    write_fault_text(out, layout, fault)?;
    out.write_all(b"\n")
}

/// Writes a fault, as `fault read-conflict a[1] line 4`, without the end of its line. The error is
/// that the writer failed (E17).
pub fn write_fault_text<W: Out>(
    out: &mut W,
    layout: &Layout,
    fault: &Fault,
) -> Result<(), WriteFault>
    ensures written { Writes (W.Out.state out.old) (W.Out.state out.new) (shown.fault_text layout.now fault.now) result }
{
    let mut digits = Buffer::new();
    out.write_parts(&[b"fault ", kind_bytes(fault.kind), b" "])?;
    write_place(out, layout, fault.place)?;
    out.write_parts(&[b" line ", digits.format(fault.line).as_bytes()])
}

/// Writes the place of a fault: `all`, `processor 3`, or a cell, as `a[1]`. The error is that the writer failed (E17).
pub fn write_place<W: Out>(out: &mut W, layout: &Layout, place: Place) -> Result<(), WriteFault>
    // Exactly the place's text is written, or a beginning of it and then a failure.
    ensures written { Writes (W.Out.state out.old) (W.Out.state out.new) (shown.place_text layout.now place) result }
{
    match place {
        Place::All => out.write_all(b"all"),
        Place::Processor(index) => {
            let mut digits = Buffer::new();
            out.write_parts(&[b"processor ", digits.format(index).as_bytes()])
        }
        Place::Cell(cell) => write_cell(out, layout, cell as usize),
    }
}

/// The word of a kind of fault, as `read-conflict`.
pub fn kind_word(kind: Kind) -> &'static str
    // It is the word by which a fault of that kind is told.
    ensures { result.now ≡ shown.kind_text kind }
{
    match kind {
        Kind::Overflow => "overflow",
        Kind::DivideByZero => "divide-by-zero",
        Kind::OutOfRange => "out-of-range",
        Kind::TooWide => "too-wide",
        Kind::ReadConflict => "read-conflict",
        Kind::WriteConflict => "write-conflict",
    }
}

fn kind_bytes(kind: Kind) -> &'static [u8]
    ensures { result.now ≡ shown.kind_text kind }
{
    kind_word(kind).as_bytes()
}
