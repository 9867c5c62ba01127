//! What is drawn of a fault.

ghost use Rattle.std.specs.Prelude.{◌≡◌, ◌<◌, ◌^◌, ◌++◌, codes, take};
ghost use Rattle.text_out.specs.Out.{Writes};
ghost use Rattle.journal.specs.Entries.{entry_is};
ghost use Rattle.program_texts.specs.Shown.{spaced};
ghost use Rattle.svg_texts.specs.Letters.{letters};
ghost use Rattle.svg_texts.specs.Shapes.{shape_text, words_text};
ghost use Rattle.pictures.specs.Flows.Columns as spec;

use crate::faults::write_fault_line;
use crate::flows::links::has_read;
use crate::flows::measure::y_of;
use crate::looks::black;
use itoa::Buffer;
use journal::Entry;
use pram_trees::Layout;
use pram_values::Place;
use program_texts::write_values;
use svg_texts::{Anchor, Face, Form, Weight, close_text, open_label, write_form};
use text_out::{Out, WriteFault};
use write_rules::Fault;

// No more of those that met are named.
const MOST_NAMED: usize = 12;

// Around the middle of something, 28 pixels to each side.
fn write_frame<W: Out>(out: &mut W, x: u128, top: u128, tall: u128) -> Result<(), WriteFault>
    ensures written { Writes (W.Out.state out.old) (W.Out.state out.new)
        (shape_text (spec.frame x top tall)) result }
{
    let form = Form::Rectangle {
        left: x.saturating_sub(28),
        top,
        wide: 56,
        tall,
    };
    write_form(out, &form, &black(Weight::Heavy, false))
}

// A frame in the row of a cell, where it has one.
fn write_cell_frame<W: Out>(out: &mut W, rows: &[u32], x: u128, cell: u32) -> Result<(), WriteFault>
    ensures written { Writes (W.Out.state out.old) (W.Out.state out.new) (shape_text (spec.cell_frame rows.now x cell)) result }
{
    if has_read(rows, cell) {
        write_frame(out, x, y_of(rows, cell).saturating_sub(9), 18)
    } else {
        Ok(())
    }
}

fn write_place_frame<W: Out>(
    out: &mut W,
    rows: &[u32],
    x: u128,
    place: Place,
) -> Result<(), WriteFault>
    ensures written { Writes (W.Out.state out.old) (W.Out.state out.new) (shape_text (spec.place_frame rows.now x place)) result }
{
    match place {
        Place::All => Ok(()),
        Place::Processor(_) => Ok(()),
        Place::Cell(cell) => write_cell_frame(out, rows, x, cell),
    }
}

// How many more met than are named.
fn write_met_cut<W: Out>(out: &mut W, met: &[i64]) -> Result<(), WriteFault>
    ensures written { Writes (W.Out.state out.old) (W.Out.state out.new) (words_text (spec.met_cut met.now)) result }
{
    if met.len() > MOST_NAMED {
        let mut digits = Buffer::new();
        out.write_parts(&[
            b" and ",
            digits.format(met.len() - MOST_NAMED).as_bytes(),
            b" more met there",
        ])
    } else {
        out.write_all(b" met there")
    }
}

// Those that are named.
fn named(met: &[i64]) -> &[i64]
    ensures { result.now ≡ take 12 met.now }
{
    if met.len() > MOST_NAMED {
        met.split_at(MOST_NAMED).0
    } else {
        met
    }
}

fn write_named<W: Out>(out: &mut W, met: &[i64]) -> Result<(), WriteFault>
    ensures written { Writes (W.Out.state out.old) (W.Out.state out.new) (letters (spaced (take 12 met.now))) result }
{
    write_values(out, named(met))
}

fn write_named_met<W: Out>(out: &mut W, met: &[i64]) -> Result<(), WriteFault>
    ensures written { Writes (W.Out.state out.old) (W.Out.state out.new)
        (letters (spaced (take 12 met.now)) ++ words_text (spec.met_cut met.now)) result }
{
    write_named(out, met)?;
    write_met_cut(out, met)
}

fn write_met_words<W: Out>(out: &mut W, met: &[i64]) -> Result<(), WriteFault>
    ensures written { Writes (W.Out.state out.old) (W.Out.state out.new) (words_text (spec.met_words met.now)) result }
{
    out.write_all(b"processors")?;
    write_named_met(out, met)
}

fn write_some_met<W: Out>(out: &mut W, y: u128, met: &[i64]) -> Result<(), WriteFault>
    ensures written { Writes (W.Out.state out.old) (W.Out.state out.new) (shape_text (spec.some_met y met.now)) result }
{
    open_label(out, 12, y, Anchor::Start, Face::Plain)?;
    write_met_words(out, met)?;
    close_text(out)
}

// Who met, below the fault.
fn write_met<W: Out>(out: &mut W, y: u128, met: &[i64]) -> Result<(), WriteFault>
    ensures written { Writes (W.Out.state out.old) (W.Out.state out.new) (shape_text (spec.met_shape y met.now)) result }
{
    if met.is_empty() {
        Ok(())
    } else {
        write_some_met(out, y, met)
    }
}

// A frame around the head of a column.
fn write_head_frame<W: Out>(out: &mut W, x: u128) -> Result<(), WriteFault>
    ensures written { Writes (W.Out.state out.old) (W.Out.state out.new) (shape_text (spec.head_frame x)) result }
{
    write_frame(out, x, 258, 34)
}

fn write_frames<W: Out>(out: &mut W, rows: &[u32], x: u128, fault: &Fault) -> Result<(), WriteFault>
    ensures written { Writes (W.Out.state out.old) (W.Out.state out.new) (shape_text (spec.frames rows.now x fault.now)) result }
{
    write_head_frame(out, x)?;
    write_place_frame(out, rows, x, fault.place)
}

// What was wrong, and who met.
fn write_fault_lines<W: Out>(
    out: &mut W,
    layout: &Layout,
    y: u128,
    fault: &Fault,
    met: &[i64],
) -> Result<(), WriteFault>
    requires near { y < 2 ^ 100 }
    ensures written { Writes (W.Out.state out.old) (W.Out.state out.new)
        (shape_text (spec.fault_lines layout.now y fault.now met.now)) result }
{
    write_fault_line(out, layout, y, fault)?;
    write_met(out, y + 18, met)
}

fn write_fault_marks<W: Out>(
    out: &mut W,
    layout: &Layout,
    rows: &[u32],
    x: u128,
    y: u128,
    fault: &Fault,
    met: &[i64],
) -> Result<(), WriteFault>
    requires near { y < 2 ^ 100 }
    ensures written { Writes (W.Out.state out.old) (W.Out.state out.new)
        (shape_text (spec.fault_marks layout.now rows.now x y fault.now met.now)) result }
{
    write_frames(out, rows, x, fault)?;
    write_fault_lines(out, layout, y, fault, met)
}

/// Writes what is drawn of a fault, where the statement faulted.
pub(crate) fn write_fault_part<W: Out>(
    out: &mut W,
    layout: &Layout,
    rows: &[u32],
    x: u128,
    y: u128,
    entry: &Entry,
) -> Result<(), WriteFault>
    requires near { y < 2 ^ 100 }
    ensures written { Writes (W.Out.state out.old) (W.Out.state out.new)
        (shape_text (spec.fault_part layout.now rows.now x y (entry_is entry.now))) result }
{
    match entry {
        Entry::Ran { .. } => Ok(()),
        Entry::Faulted { fault, met, .. } => write_fault_marks(out, layout, rows, x, y, fault, met),
    }
}
