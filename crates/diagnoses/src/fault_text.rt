//! What is said of a fault.
ghost use Rattle.text_out.specs.Out.{Writes};
ghost use Rattle.diagnoses.specs.FaultTexts as spec;
ghost use Rattle.diagnoses.specs.Reasons.{reason_is};

use crate::cause_text::write_cause;
use crate::event_text::write_event;
use crate::reason::Reason;
use crate::source::Source;
use itoa::Buffer;
use pram_trees::Layout;
use pram_values::{Kind, Place};
use program_texts::write_cell;
use text_out::{Out, WriteFault};
use text_places::{write_excerpt, write_line_excerpt};
use write_rules::Fault;

fn write_cell_prefix<W: Out>(out: &mut W, layout: &Layout, cell: usize) -> Result<(), WriteFault>
    ensures written { Writes (W.Out.state out.old) (W.Out.state out.new) (spec.cell_prefix layout.now cell) result }
{
    write_cell(out, layout, cell)?;
    out.write_all(b": ")
}

// Where it happened.
fn write_prefix<W: Out>(out: &mut W, layout: &Layout, place: Place) -> Result<(), WriteFault>
    ensures written { Writes (W.Out.state out.old) (W.Out.state out.new) (spec.place_prefix layout.now place) result }
{
    match place {
        Place::All => out.write_all(b""),
        Place::Processor(index) => {
            let mut digits = Buffer::new();
            out.write_parts(&[b"processor ", digits.format(index).as_bytes(), b": "])
        }
        Place::Cell(cell) => write_cell_prefix(out, layout, cell as usize),
    }
}

// Why it happened, if that is known.
fn write_known<W: Out>(
    out: &mut W,
    layout: &Layout,
    kind: Kind,
    reason: &Reason,
) -> Result<(), WriteFault>
    ensures written { Writes (W.Out.state out.old) (W.Out.state out.new)
        (spec.known_text layout.now kind (reason_is reason.now).met (reason_is reason.now).cause) result }
{
    match &reason.cause {
        Some(cause) => write_cause(out, layout, kind, &reason.met, cause),
        None => write_event(out, kind, &reason.met),
    }
}

/// Writes what happened at a fault: where, and why, as far as that is known. The error is that the writer failed (E17).
pub fn write_fault_sentence<W: Out>(
    out: &mut W,
    layout: &Layout,
    fault: &Fault,
    reason: &Reason,
) -> Result<(), WriteFault>
    ensures written { Writes (W.Out.state out.old) (W.Out.state out.new)
        (spec.fault_sentence layout.now fault.now (reason_is reason.now)) result }
{
    write_prefix(out, layout, fault.place)?;
    write_known(out, layout, fault.kind, reason)
}

// The line of the program's text where a fault came, with a caret below the element whose subscript is wrong, if that is known.
fn write_fault_place<W: Out>(
    out: &mut W,
    source: &Source<'_>,
    line: usize,
    at: Option<u32>,
) -> Result<(), WriteFault>
    ensures written { Writes (W.Out.state out.old) (W.Out.state out.new) (spec.fault_place source.now line at) result }
{
    let (name, text) = (source.name.as_bytes(), source.bytes.as_slice());
    match at {
        None => write_line_excerpt(out, name, text, line),
        Some(at) => write_excerpt(out, name, text, source.origin(at) as usize),
    }
}

/// Writes what is said of a fault of a program's run: the line of the program's text where it came, what happened, and why, as far as that
/// is known. The error is that the writer failed (E17).
pub fn write_run_fault<W: Out>(
    out: &mut W,
    source: &Source<'_>,
    layout: &Layout,
    fault: &Fault,
    reason: &Reason,
) -> Result<(), WriteFault>
    // Exactly what is said of this fault and of its reason is written, or a beginning of it and then a failure.
    ensures written { Writes (W.Out.state out.old) (W.Out.state out.new)
        (spec.fault_diagnosis source.now layout.now fault.now (reason_is reason.now)) result }
{
    write_fault_place(out, source, fault.line as usize, reason.at)?;
    write_fault_sentence(out, layout, fault, reason)
}
