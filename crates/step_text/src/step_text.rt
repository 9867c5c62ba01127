//! The text of entries.

ghost use Rattle.std.specs.Prelude.{map};
ghost use Rattle.text_out.specs.Out.{Writes};
ghost use Rattle.program_texts.specs.Shown.{line};
ghost use Rattle.journal.specs.Entries.{entry_is, own_is};
ghost use Rattle.step_text.specs.StepText.{entry_line};
ghost use Rattle.step_text.specs.ChangeTexts as spec;

use crate::beside_cells::write_beside_cells;
use crate::columns::{write_column, write_place};
use crate::manner::Manner;
use crate::own_locals::write_own_locals;
use crate::ran::Ran;
use crate::telling::{Detail, Telling};
use crate::terminal::write_on_terminal;
use crate::values::write_value;
use itoa::Buffer;
use journal::{Change, Entry, OwnLocals};
use pram_trees::{Layout, Location};
use program_texts::{write_cell, write_fault_text, write_values};
use text_out::{Out, WriteFault};
use write_rules::Fault;

// A cell's change, behind a space.
fn write_change<W: Out>(out: &mut W, layout: &Layout, change: &Change) -> Result<(), WriteFault>
    ensures written { Writes (W.Out.state out.old) (W.Out.state out.new) (spec.change_text layout.now change.now) result }
{
    out.write_all(b" ")?;
    write_cell(out, layout, change.cell)?;
    write_value(out, change)
}

pub(crate) fn write_changes<W: Out>(
    out: &mut W,
    layout: &Layout,
    changes: &[Change],
) -> Result<(), WriteFault>
    ensures written { Writes (W.Out.state out.old) (W.Out.state out.new) (spec.changes_text layout.now changes.now) result }
{
    for change in changes {
        write_change(out, layout, change)?;
    }
    Ok(())
}

fn write_meeting<W: Out>(out: &mut W, processors: &[i64]) -> Result<(), WriteFault>
    ensures written { Writes (W.Out.state out.old) (W.Out.state out.new) (spec.meeting_text processors.now) result }
{
    if processors.is_empty() {
        return Ok(());
    }
    out.write_all(b" processors")?;
    write_values(out, processors)
}

// How many processors executed a statement.
fn write_count<W: Out>(out: &mut W, processors: usize) -> Result<(), WriteFault>
    ensures written { Writes (W.Out.state out.old) (W.Out.state out.new) (spec.count_text processors) result }
{
    let mut digits = Buffer::new();
    out.write_parts(&[b" processors ", digits.format(processors).as_bytes()])
}

// Where a statement stands that ran, and its processors.
pub(crate) fn write_head<W: Out>(
    out: &mut W,
    detail: &Detail<'_>,
    location: Location,
    processors: usize,
) -> Result<(), WriteFault>
    ensures written { Writes (W.Out.state out.old) (W.Out.state out.new) (spec.head_text detail.now.columns location processors) result }
{
    write_place(out, detail, location)?;
    write_count(out, processors)
}

// What is told of a statement that ran.
fn write_ran<W: Out>(
    out: &mut W,
    layout: &Layout,
    detail: &Detail<'_>,
    location: Location,
    processors: usize,
    changes: &[Change],
) -> Result<(), WriteFault>
    ensures written { Writes (W.Out.state out.old) (W.Out.state out.new)
        (spec.ran_text layout.now detail.now.columns location processors changes.now) result }
{
    write_head(out, detail, location, processors)?;
    write_changes(out, layout, changes)
}

// All that is told of it.
fn write_whole<W: Out>(
    out: &mut W,
    layout: &Layout,
    detail: &Detail<'_>,
    ran: &Ran<'_>,
) -> Result<(), WriteFault>
    ensures written { Writes (W.Out.state out.old) (W.Out.state out.new)
        (spec.whole_text layout.now detail.now ran.now.location ran.now.processors ran.now.cells.now ran.now.variables.now
        ran.now.locals.now ran.now.printed.now) result }
{
    write_ran(out, layout, detail, ran.location, ran.processors, ran.cells)?;
    let at = ran.location.offset;
    write_beside_cells(out, detail, at, ran.variables, ran.locals, ran.printed)
}

// What is told of a fault, at the statement that stands there.
pub(crate) fn write_faulting<W: Out>(
    out: &mut W,
    layout: &Layout,
    detail: &Detail<'_>,
    location: Location,
    fault: &Fault,
    processors: &[i64],
    locals: &[OwnLocals],
) -> Result<(), WriteFault>
    ensures written { Writes (W.Out.state out.old) (W.Out.state out.new)
        (spec.faulting_text layout.now detail.now location fault.now processors.now (map own_is locals.now)) result }
{
    write_fault_text(out, layout, fault)?;
    write_column(out, detail, location.offset)?;
    write_meeting(out, processors)?;
    write_own_locals(out, detail, location.offset, locals)
}

// What is told of a statement.
fn write_told<W: Out>(
    out: &mut W,
    layout: &Layout,
    detail: &Detail<'_>,
    entry: &Entry,
) -> Result<(), WriteFault>
    ensures written { Writes (W.Out.state out.old) (W.Out.state out.new)
        (spec.told_text layout.now detail.now (entry_is entry.now)) result }
{
    match entry {
        Entry::Ran {
            location,
            acts,
            cells,
            variables,
            locals,
            printed,
        } => {
            let ran = Ran {
                location: *location,
                processors: acts.len(),
                cells,
                variables,
                locals,
                printed,
            };
            write_whole(out, layout, detail, &ran)
        }
        Entry::Faulted {
            location,
            fault,
            met,
            locals,
            ..
        } => write_faulting(out, layout, detail, *location, fault, met, locals),
    }
}

// The number of an entry.
pub(crate) fn write_number<W: Out>(out: &mut W, number: usize) -> Result<(), WriteFault>
    ensures written { Writes (W.Out.state out.old) (W.Out.state out.new) (spec.number_text number) result }
{
    let mut digits = Buffer::new();
    out.write_parts(&[digits.format(number).as_bytes(), b" "])
}

/// Writes an entry behind its number, on a line: `5 line 9 processors 4 a[3] 4 -> 7 a[4] 0 -> 2`, with locals
/// `17 line 14 processors 4 a[3] 4 -> 7 m 8 -> 4 x 1: 3 -> 7 2: 0 -> 1 prints 36`, or at a fault
/// `6 fault read-conflict a[1] line 4 processors 1 3`, where at a cell the indices of the processors follow that met there, and with
/// locals what these held, ` 1: x 3 y 7 3: x 0 y 2`. With columns it is `line 9:5` in place of `line 9`. The error is that the writer
/// failed (E17).
pub(crate) fn write_entry<W: Out>(
    out: &mut W,
    layout: &Layout,
    detail: &Detail<'_>,
    number: usize,
    entry: &Entry,
) -> Result<(), WriteFault>
    // Exactly the text of this entry is written, with its locals and its columns where these are asked for, or a
    // beginning of it and then a failure.
    ensures written { Writes (W.Out.state out.old) (W.Out.state out.new)
        (line (spec.entry_text layout.now detail.now number (entry_is entry.now))) result }
{
    write_number(out, number)?;
    write_told(out, layout, detail, entry)?;
    out.write_all(b"\n")
}

/// Writes the line of an entry behind its number, in the manner and with the detail of a telling. The error is that the writer failed
/// (E17).
pub(crate) fn write_line<W: Out>(
    out: &mut W,
    layout: &Layout,
    telling: &Telling<'_>,
    number: usize,
    entry: &Entry,
) -> Result<(), WriteFault>
    // Exactly the entry's line is written, plainly or for a terminal, there beside its text shown without control bytes
    // and coloured if asked, or a beginning and then a failure.
    ensures written { Writes (W.Out.state out.old) (W.Out.state out.new)
        (entry_line layout.now telling.now.manner telling.now.detail number (entry_is entry.now)) result }
{
    let detail = &telling.detail;
    match &telling.manner {
        Manner::Plain => write_entry(out, layout, detail, number, entry),
        Manner::OnTerminal { text, colours } => {
            write_on_terminal(out, layout, text, *colours, detail, number, entry)
        }
    }
}
