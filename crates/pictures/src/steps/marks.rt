//! A processor in the column of a statement.

ghost use Rattle.std.specs.Prelude.{◌≡◌, ◌≤◌, ◌+◌, ◌++◌, codes};
ghost use Rattle.text_out.specs.Out.{Writes};
ghost use Rattle.journal.specs.Entries.{act_is};
ghost use Rattle.pictures.specs.Steps.Marks as spec;
ghost use Rattle.svg_texts.specs.Shapes.{shape_text, words_text};

use crate::looks::black;
use crate::names::write_cell_letters;
use crate::steps::paints::{write_note, write_white};
use itoa::Buffer;
use journal::Act;
use pram_trees::Layout;
use svg_texts::{
    Colour, Form, Weight, close_titled, open_titled, write_filled, write_form, write_title_end,
};
use text_out::{Out, WriteFault};

// Which processor it is.
fn write_who<W: Out>(out: &mut W, processor: Option<i64>) -> Result<(), WriteFault>
    ensures written { Writes (W.Out.state out.old) (W.Out.state out.new) (words_text (spec.who_words processor)) result }
{
    match processor {
        None => out.write_all(b"outside pardo"),
        Some(index) => {
            let mut digits = Buffer::new();
            out.write_parts(&[b"processor ", digits.format(index).as_bytes()])
        }
    }
}

// A cell, behind a space.
fn write_behind<W: Out>(out: &mut W, layout: &Layout, cell: u32) -> Result<(), WriteFault>
    ensures written { Writes (W.Out.state out.old) (W.Out.state out.new) (words_text (spec.cell_behind layout.now cell)) result }
{
    out.write_all(b" ")?;
    write_cell_letters(out, layout, cell as usize)
}

fn write_cells<W: Out>(out: &mut W, layout: &Layout, cells: &[u32]) -> Result<(), WriteFault>
    ensures written { Writes (W.Out.state out.old) (W.Out.state out.new) (words_text (spec.cells_words layout.now cells.now)) result }
{
    for cell in cells {
        write_behind(out, layout, *cell)?;
    }
    Ok(())
}

// Which cells it read.
fn write_reads<W: Out>(out: &mut W, layout: &Layout, cells: &[u32]) -> Result<(), WriteFault>
    ensures written { Writes (W.Out.state out.old) (W.Out.state out.new) (words_text (spec.reads_words layout.now cells.now)) result }
{
    if cells.is_empty() {
        return Ok(());
    }
    out.write_all(b" reads")?;
    write_cells(out, layout, cells)
}

fn write_written<W: Out>(out: &mut W, layout: &Layout, cell: u32) -> Result<(), WriteFault>
    ensures written { Writes (W.Out.state out.old) (W.Out.state out.new) (words_text (spec.written_words layout.now cell)) result }
{
    out.write_all(b" writes ")?;
    write_cell_letters(out, layout, cell as usize)
}

// Which cell it wrote.
fn write_write<W: Out>(out: &mut W, layout: &Layout, cell: Option<u32>) -> Result<(), WriteFault>
    ensures written { Writes (W.Out.state out.old) (W.Out.state out.new) (words_text (spec.write_words layout.now cell)) result }
{
    match cell {
        None => out.write_all(b""),
        Some(cell) => write_written(out, layout, cell),
    }
}

fn write_accesses<W: Out>(out: &mut W, layout: &Layout, act: &Act) -> Result<(), WriteFault>
    ensures written { Writes (W.Out.state out.old) (W.Out.state out.new)
        (words_text (spec.accesses_words layout.now (act_is act.now))) result }
{
    write_reads(out, layout, &act.reads)?;
    write_write(out, layout, act.write)
}

// What the box of a processor says where it is pointed at.
fn write_title<W: Out>(out: &mut W, layout: &Layout, act: &Act) -> Result<(), WriteFault>
    ensures written { Writes (W.Out.state out.old) (W.Out.state out.new)
        (words_text (spec.title_words layout.now (act_is act.now))) result }
{
    write_who(out, act.processor)?;
    write_accesses(out, layout, act)
}

/// Where a box stands.
#[derive(Clone, Copy)]
pub(crate) struct Corner {
    pub(crate) x: usize,
    pub(crate) y: usize,
    ghost right: { x ≤ 2000 },
    ghost down: { y ≤ 30000 },
}

// A field of that colour.
fn write_field<W: Out>(
    out: &mut W,
    left: usize,
    top: usize,
    colour: Colour,
) -> Result<(), WriteFault>
    ensures written { Writes (W.Out.state out.old) (W.Out.state out.new) (shape_text (spec.field left top colour)) result }
{
    let form = Form::Rectangle {
        left: left as u128,
        top: top as u128,
        wide: 26,
        tall: 14,
    };
    write_filled(out, &form, colour)
}

/// Writes the mark of one that read.
pub(crate) fn write_read_mark<W: Out>(out: &mut W, at: Corner) -> Result<(), WriteFault>
    ensures written { Writes (W.Out.state out.old) (W.Out.state out.new) (shape_text (spec.read_mark at.x at.y)) result }
{
    write_field(out, at.x + 2, at.y + 2, Colour::Blue)?;
    write_white(out, at.x + 12, at.y + 13, b"r")
}

/// Writes the mark of one that wrote.
pub(crate) fn write_write_mark<W: Out>(out: &mut W, at: Corner) -> Result<(), WriteFault>
    ensures written { Writes (W.Out.state out.old) (W.Out.state out.new) (shape_text (spec.write_mark at.x at.y)) result }
{
    write_field(out, at.x + 32, at.y + 2, Colour::Orange)?;
    write_note(out, at.x + 40, at.y + 13, b"w")
}

fn write_read_part<W: Out>(out: &mut W, at: Corner, cells: &[u32]) -> Result<(), WriteFault>
    ensures written { Writes (W.Out.state out.old) (W.Out.state out.new) (shape_text (spec.read_part at.x at.y cells.now)) result }
{
    if cells.is_empty() {
        out.write_all(b"")
    } else {
        write_read_mark(out, at)
    }
}

fn write_write_part<W: Out>(out: &mut W, at: Corner, cell: Option<u32>) -> Result<(), WriteFault>
    ensures written { Writes (W.Out.state out.old) (W.Out.state out.new) (shape_text (spec.write_part at.x at.y cell)) result }
{
    match cell {
        None => out.write_all(b""),
        Some(_) => write_write_mark(out, at),
    }
}

fn write_marks<W: Out>(out: &mut W, at: Corner, act: &Act) -> Result<(), WriteFault>
    ensures written { Writes (W.Out.state out.old) (W.Out.state out.new) (shape_text (spec.marks at.x at.y (act_is act.now))) result }
{
    write_read_part(out, at, &act.reads)?;
    write_write_part(out, at, act.write)
}

/// Writes the ground of a box.
pub(crate) fn write_ground<W: Out>(out: &mut W, at: Corner) -> Result<(), WriteFault>
    ensures written { Writes (W.Out.state out.old) (W.Out.state out.new) (shape_text (spec.ground at.x at.y)) result }
{
    let form = Form::Rectangle {
        left: at.x as u128,
        top: at.y as u128,
        wide: 60,
        tall: 18,
    };
    write_filled(out, &form, Colour::Light)
}

fn write_marked<W: Out>(out: &mut W, at: Corner, act: &Act) -> Result<(), WriteFault>
    ensures written { Writes (W.Out.state out.old) (W.Out.state out.new) (shape_text (spec.marked at.x at.y (act_is act.now))) result }
{
    write_ground(out, at)?;
    write_marks(out, at, act)
}

fn write_box_rest<W: Out>(out: &mut W, at: Corner, act: &Act) -> Result<(), WriteFault>
    ensures written { Writes (W.Out.state out.old) (W.Out.state out.new)
        (codes "</title>\n" ++ (shape_text (spec.marked at.x at.y (act_is act.now)) ++ codes "</g>\n")) result }
{
    write_title_end(out)?;
    write_marked(out, at, act)?;
    close_titled(out)
}

/// Writes the box of a processor that acted.
pub(crate) fn write_box<W: Out>(
    out: &mut W,
    layout: &Layout,
    at: Corner,
    act: &Act,
) -> Result<(), WriteFault>
    ensures written { Writes (W.Out.state out.old) (W.Out.state out.new)
        (shape_text (spec.box layout.now at.x at.y (act_is act.now))) result }
{
    open_titled(out)?;
    write_title(out, layout, act)?;
    write_box_rest(out, at, act)
}

// The outline itself.
fn write_frame<W: Out>(out: &mut W, at: Corner) -> Result<(), WriteFault>
    ensures written { Writes (W.Out.state out.old) (W.Out.state out.new) (shape_text (spec.frame at.x at.y)) result }
{
    let form = Form::Rectangle {
        left: at.x as u128,
        top: at.y as u128,
        wide: 60,
        tall: 18,
    };
    write_form(out, &form, &black(Weight::Heavy, false))
}

/// Writes an outline, and the word in it.
pub(crate) fn write_met_mark<W: Out>(out: &mut W, at: Corner) -> Result<(), WriteFault>
    ensures written { Writes (W.Out.state out.old) (W.Out.state out.new) (shape_text (spec.met_mark at.x at.y)) result }
{
    write_frame(out, at)?;
    write_note(out, at.x + 33, at.y + 13, b"met")
}

// What it says where it is pointed at.
fn write_who_met<W: Out>(out: &mut W, index: i64) -> Result<(), WriteFault>
    ensures written { Writes (W.Out.state out.old) (W.Out.state out.new) (words_text (spec.who_met index)) result }
{
    let mut digits = Buffer::new();
    out.write_parts(&[b"processor ", digits.format(index).as_bytes(), b" met"])
}

fn write_outline_rest<W: Out>(out: &mut W, at: Corner) -> Result<(), WriteFault>
    ensures written { Writes (W.Out.state out.old) (W.Out.state out.new)
        (codes "</title>\n" ++ (shape_text (spec.met_mark at.x at.y) ++ codes "</g>\n")) result }
{
    write_title_end(out)?;
    write_met_mark(out, at)?;
    close_titled(out)
}

/// Writes the outline of a processor that met others, and that word in it.
pub(crate) fn write_outline<W: Out>(out: &mut W, at: Corner, index: i64) -> Result<(), WriteFault>
    ensures written { Writes (W.Out.state out.old) (W.Out.state out.new) (shape_text (spec.outline at.x at.y index)) result }
{
    open_titled(out)?;
    write_who_met(out, index)?;
    write_outline_rest(out, at)
}
