//! The text of entries on a terminal.

ghost use Rattle.std.specs.Prelude.{◌≡◌};
ghost use Rattle.text_out.specs.Out.{Writes};
ghost use Rattle.journal.specs.Entries.{entry_is};
ghost use Rattle.step_text.specs.OnTerminal as spec;

use crate::beside_cells::write_beside_cells;
use crate::ran::Ran;
use crate::step_text::{write_changes, write_faulting, write_head, write_number};
use crate::telling::Detail;
use journal::{Change, Entry};
use pram_trees::{Layout, Location};
use text_out::{Out, WriteFault};
use text_places::write_line;
use write_rules::Fault;

// Changes between what begins a colour and what ends it.
fn write_in_colour<W: Out>(
    out: &mut W,
    layout: &Layout,
    changes: &[Change],
) -> Result<(), WriteFault>
    ensures written { Writes (W.Out.state out.old) (W.Out.state out.new) (spec.in_colour layout.now changes.now) result }
{
    out.write_all(b"\x1b[36m")?;
    write_changes(out, layout, changes)?;
    out.write_all(b"\x1b[0m")
}

// Changes, in colour where that is asked for and there are any.
fn write_coloured<W: Out>(
    out: &mut W,
    layout: &Layout,
    colours: bool,
    changes: &[Change],
) -> Result<(), WriteFault>
    ensures written { Writes (W.Out.state out.old) (W.Out.state out.new) (spec.coloured_changes layout.now colours changes.now) result }
{
    if colours && !changes.is_empty() {
        write_in_colour(out, layout, changes)
    } else {
        write_changes(out, layout, changes)
    }
}

// What is told of a statement that ran.
fn write_ran<W: Out>(
    out: &mut W,
    layout: &Layout,
    colours: bool,
    detail: &Detail<'_>,
    location: Location,
    processors: usize,
    changes: &[Change],
) -> Result<(), WriteFault>
    ensures written { Writes (W.Out.state out.old) (W.Out.state out.new)
        (spec.ran_text layout.now colours detail.now.columns location processors changes.now) result }
{
    write_head(out, detail, location, processors)?;
    write_coloured(out, layout, colours, changes)
}

// All that is told of it.
fn write_whole<W: Out>(
    out: &mut W,
    layout: &Layout,
    colours: bool,
    detail: &Detail<'_>,
    ran: &Ran<'_>,
) -> Result<(), WriteFault>
    ensures written { Writes (W.Out.state out.old) (W.Out.state out.new)
        (spec.whole_text layout.now colours detail.now ran.now.location ran.now.processors ran.now.cells.now ran.now.variables.now
        ran.now.locals.now ran.now.printed.now) result }
{
    write_ran(
        out,
        layout,
        colours,
        detail,
        ran.location,
        ran.processors,
        ran.cells,
    )?;
    let at = ran.location.offset;
    write_beside_cells(out, detail, at, ran.variables, ran.locals, ran.printed)
}

// What is told of a statement.
fn write_told<W: Out>(
    out: &mut W,
    layout: &Layout,
    colours: bool,
    detail: &Detail<'_>,
    entry: &Entry,
) -> Result<(), WriteFault>
    ensures written { Writes (W.Out.state out.old) (W.Out.state out.new)
        (spec.told_text layout.now colours detail.now (entry_is entry.now)) result }
{
    match entry {
        Entry::Ran {
            location,
            acts,
            cells,
            variables,
            locals,
            printed,
        } => {
            let ran = Ran {
                location: *location,
                processors: acts.len(),
                cells,
                variables,
                locals,
                printed,
            };
            write_whole(out, layout, colours, detail, &ran)
        }
        Entry::Faulted {
            location,
            fault,
            met,
            locals,
            ..
        } => write_faulting(out, layout, detail, *location, fault, met, locals),
    }
}

// The line of an entry's statement.
fn line_of(entry: &Entry) -> u32
    ensures { result ≡ spec.line_of (entry_is entry.now) }
{
    match entry {
        Entry::Ran { location, .. } => location.line,
        Entry::Faulted { fault, .. } => fault.line,
    }
}

// The line of the text beside an entry, and the end of the entry's line.
fn write_beside<W: Out>(out: &mut W, text: &[u8], line: u32) -> Result<(), WriteFault>
    ensures written { Writes (W.Out.state out.old) (W.Out.state out.new) (spec.beside text.now line) result }
{
    out.write_all(b"  | ")?;
    write_line(out, text, line as usize)
}

/// Writes an entry behind its number, and beside it its line of the text.
pub(crate) fn write_on_terminal<W: Out>(
    out: &mut W,
    layout: &Layout,
    text: &[u8],
    colours: bool,
    detail: &Detail<'_>,
    number: usize,
    entry: &Entry,
) -> Result<(), WriteFault>
    ensures written { Writes (W.Out.state out.old) (W.Out.state out.new)
        (spec.entry_line layout.now text.now colours detail.now number (entry_is entry.now)) result }
{
    write_number(out, number)?;
    write_told(out, layout, colours, detail, entry)?;
    write_beside(out, text, line_of(entry))
}
