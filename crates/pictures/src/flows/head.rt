//! What is said above the rows: how many statements and cells are drawn.

ghost use Rattle.std.specs.Prelude.{◌≡◌, ◌++◌, codes, decimal, length};
ghost use Rattle.text_out.specs.Out.{Writes};
ghost use Rattle.pram_model.specs.Layout.{total_size};
ghost use Rattle.svg_texts.specs.Shapes.{shape_text, words_text};
ghost use Rattle.pictures.specs.Flows.Picture as spec;

use crate::flows::key::write_key;
use crate::flows::spans::CellSpan;
use itoa::Buffer;
use pram_trees::Layout;
use svg_texts::{Anchor, Face, close_text, open_label};
use text_out::{Out, WriteFault};

fn write_from<W: Out>(out: &mut W, from: usize) -> Result<(), WriteFault>
    ensures written { Writes (W.Out.state out.old) (W.Out.state out.new) (words_text (spec.from_words from)) result }
{
    let mut first = Buffer::new();
    out.write_parts(&[b" from ", first.format(from).as_bytes()])
}

// Of none the first number is told alone.
fn write_from_to<W: Out>(out: &mut W, from: usize, last: usize) -> Result<(), WriteFault>
    ensures written { Writes (W.Out.state out.old) (W.Out.state out.new) (words_text (spec.from_to_words from last)) result }
{
    if last < from {
        return write_from(out, from);
    }
    let mut first = Buffer::new();
    let mut second = Buffer::new();
    out.write_parts(&[
        b" from ",
        first.format(from).as_bytes(),
        b" to ",
        second.format(last).as_bytes(),
    ])
}

// Between which numbers, where not all are asked for.
fn write_range<W: Out>(
    out: &mut W,
    from: usize,
    to: usize,
    statements: usize,
) -> Result<(), WriteFault>
    ensures written { Writes (W.Out.state out.old) (W.Out.state out.new) (words_text (spec.range_words from to statements)) result }
{
    if from <= 1 && statements <= to {
        return Ok(());
    }
    write_from_to(out, from, to.min(statements))
}

// How many have no room.
fn write_statement_cut<W: Out>(
    out: &mut W,
    columns: usize,
    touching: usize,
) -> Result<(), WriteFault>
    ensures written { Writes (W.Out.state out.old) (W.Out.state out.new) (words_text (spec.statement_cut columns touching)) result }
{
    if touching > columns {
        let mut digits = Buffer::new();
        out.write_parts(&[
            b", without ",
            digits.format(touching - columns).as_bytes(),
            b" for which there is no room",
        ])
    } else {
        Ok(())
    }
}

fn write_statements<W: Out>(
    out: &mut W,
    statements: usize,
    columns: usize,
) -> Result<(), WriteFault>
    ensures written { Writes (W.Out.state out.old) (W.Out.state out.new) (words_text (spec.statements_words statements columns)) result }
{
    let mut all = Buffer::new();
    let mut some = Buffer::new();
    out.write_parts(&[
        all.format(statements).as_bytes(),
        b" statements, ",
        some.format(columns).as_bytes(),
        b" of them drawn: those that touch shared memory",
    ])
}

fn write_statement_words<W: Out>(
    out: &mut W,
    from: usize,
    to: usize,
    statements: usize,
    columns: usize,
    touching: usize,
) -> Result<(), WriteFault>
    ensures written { Writes (W.Out.state out.old) (W.Out.state out.new)
        (words_text (spec.statement_words from to statements columns touching)) result }
{
    write_statements(out, statements, columns)?;
    write_range(out, from, to, statements)?;
    write_statement_cut(out, columns, touching)
}

fn write_statement_line<W: Out>(
    out: &mut W,
    from: usize,
    to: usize,
    statements: usize,
    columns: usize,
    touching: usize,
) -> Result<(), WriteFault>
    ensures written { Writes (W.Out.state out.old) (W.Out.state out.new)
        (shape_text (spec.statement_line from to statements columns touching)) result }
{
    open_label(out, 12, 20, Anchor::Start, Face::Plain)?;
    write_statement_words(out, from, to, statements, columns, touching)?;
    close_text(out)
}

// Which cells are drawn, where more are touched too.
fn cell_cut(found: usize) -> &'static [u8]
    ensures { result.now ≡ spec.cell_cut found }
{
    if found > 64 {
        b"the first that these statements touch, and that of a fault"
    } else {
        b"those that these statements touch"
    }
}

fn write_cells<W: Out>(
    out: &mut W,
    layout: &Layout,
    rows: usize,
    found: usize,
) -> Result<(), WriteFault>
    ensures written { Writes (W.Out.state out.old) (W.Out.state out.new)
        (words_text (spec.cells_words (total_size layout.now) rows found)) result }
{
    let mut all = Buffer::new();
    let mut some = Buffer::new();
    let mut others = Buffer::new();
    let cells = layout.cells();
    let left = (cells as usize).saturating_sub(rows);
    let cut = cell_cut(found);
    out.write_parts(&[
        all.format(cells).as_bytes(),
        b" cells, ",
        some.format(rows).as_bytes(),
        b" of them drawn, ",
        others.format(left).as_bytes(),
        b" not: ",
        cut,
    ])
}

fn write_some_only<W: Out>(out: &mut W, only: usize, declarations: usize) -> Result<(), WriteFault>
    ensures written { Writes (W.Out.state out.old) (W.Out.state out.new)
        (codes ", in " ++ (decimal only ++ (codes " of " ++ (decimal declarations ++ codes " declarations")))) result }
{
    let mut some = Buffer::new();
    let mut all = Buffer::new();
    out.write_parts(&[
        b", in ",
        some.format(only).as_bytes(),
        b" of ",
        all.format(declarations).as_bytes(),
        b" declarations",
    ])
}

// That cells of some declarations alone are drawn.
fn write_only<W: Out>(out: &mut W, layout: &Layout, only: &[CellSpan]) -> Result<(), WriteFault>
    ensures written { Writes (W.Out.state out.old) (W.Out.state out.new)
        (words_text (spec.only_words only.now (length layout.now))) result }
{
    if only.is_empty() {
        Ok(())
    } else {
        write_some_only(out, only.len(), layout.len())
    }
}

fn write_cell_words<W: Out>(
    out: &mut W,
    layout: &Layout,
    only: &[CellSpan],
    rows: usize,
    found: usize,
) -> Result<(), WriteFault>
    ensures written { Writes (W.Out.state out.old) (W.Out.state out.new)
        (words_text (spec.cells_words (total_size layout.now) rows found) ++ words_text (spec.only_words only.now (length layout.now)))
        result }
{
    write_cells(out, layout, rows, found)?;
    write_only(out, layout, only)
}

// How many cells are drawn, and how many not.
fn write_cell_line<W: Out>(
    out: &mut W,
    layout: &Layout,
    only: &[CellSpan],
    rows: usize,
    found: usize,
) -> Result<(), WriteFault>
    ensures written { Writes (W.Out.state out.old) (W.Out.state out.new)
        (shape_text (spec.cell_line layout.now only.now rows found)) result }
{
    open_label(out, 12, 38, Anchor::Start, Face::Plain)?;
    write_cell_words(out, layout, only, rows, found)?;
    close_text(out)
}

/// What stands above the rows.
pub(crate) fn write_head<W: Out>(
    out: &mut W,
    layout: &Layout,
    only: &[CellSpan],
    statements: usize,
    from: usize,
    to: usize,
    columns: usize,
    touching: usize,
    rows: usize,
    found: usize,
) -> Result<(), WriteFault>
    ensures written { Writes (W.Out.state out.old) (W.Out.state out.new)
        (shape_text (spec.head layout.now only.now statements from to columns touching rows found)) result }
{
    write_statement_line(out, from, to, statements, columns, touching)?;
    write_cell_line(out, layout, only, rows, found)?;
    write_key(out)
}
