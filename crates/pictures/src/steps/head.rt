//! What stands above the bands.

ghost use Rattle.std.specs.Prelude.{◌≡◌, ◌<◌, ◌+◌, ◌-◌, ◌++◌, codes, decimal};
ghost use Rattle.text_out.specs.Out.{Writes};
ghost use Rattle.pictures.specs.Steps.Picture as spec;
ghost use Rattle.svg_texts.specs.Plain.{numbered};
ghost use Rattle.svg_texts.specs.Shapes.{shape_text, words_text};

use crate::steps::frame::Part;
use crate::steps::key::write_key;
use crate::steps::paints::open_plain;
use svg_texts::{close_text, write_decimal, write_numbered};
use text_out::{Out, WriteFault};

// Those of a part of a run: `5 to 9 of 30`.
fn write_between<W: Out>(out: &mut W, part: Part, statements: usize) -> Result<(), WriteFault>
    ensures written { Writes (W.Out.state out.old) (W.Out.state out.new)
        (decimal (part.skipped + 1) ++ (words_text (numbered (codes " to ") (part.skipped + statements))
        ++ words_text (numbered (codes " of ") part.whole))) result }
{
    write_decimal(out, part.skipped as u128 + 1)?;
    write_numbered(out, b" to ", part.skipped as u128 + statements as u128)?;
    write_numbered(out, b" of ", part.whole as u128)
}

// Of how many statements.
fn write_count<W: Out>(out: &mut W, part: Part, statements: usize) -> Result<(), WriteFault>
    ensures written { Writes (W.Out.state out.old) (W.Out.state out.new) (words_text (spec.count_words part statements)) result }
{
    if part.whole == statements {
        write_decimal(out, statements as u128)
    } else {
        write_between(out, part, statements)
    }
}

fn write_some_statements<W: Out>(
    out: &mut W,
    part: Part,
    statements: usize,
) -> Result<(), WriteFault>
    ensures written { Writes (W.Out.state out.old) (W.Out.state out.new) (words_text (spec.some_statements part statements)) result }
{
    out.write_all(b"statements ")?;
    write_count(out, part, statements)
}

// Of a part that begins behind the run's end none is drawn.
fn write_statements_front<W: Out>(
    out: &mut W,
    part: Part,
    statements: usize,
) -> Result<(), WriteFault>
    ensures written { Writes (W.Out.state out.old) (W.Out.state out.new) (words_text (spec.statements_front part statements)) result }
{
    if statements == 0 && part.whole > 0 {
        write_numbered(out, b"no statement: the run has ", part.whole as u128)
    } else {
        write_some_statements(out, part, statements)
    }
}

// Which of them are not drawn.
fn write_gap<W: Out>(out: &mut W, part: Part, statements: usize) -> Result<(), WriteFault>
    requires many { 112 < statements }
    ensures written { Writes (W.Out.state out.old) (W.Out.state out.new) (words_text (spec.gap_words part statements)) result }
{
    write_numbered(out, b", without the ", (statements - 112) as u128)?;
    write_numbered(out, b" from ", 97 + part.skipped as u128)?;
    write_numbered(
        out,
        b" to ",
        (statements - 16) as u128 + part.skipped as u128,
    )
}

fn write_rest<W: Out>(out: &mut W, part: Part, statements: usize) -> Result<(), WriteFault>
    ensures written { Writes (W.Out.state out.old) (W.Out.state out.new) (words_text (spec.rest_words part statements)) result }
{
    if statements > 112 {
        write_gap(out, part, statements)
    } else {
        out.write_all(b"")
    }
}

fn write_statements<W: Out>(out: &mut W, part: Part, statements: usize) -> Result<(), WriteFault>
    ensures written { Writes (W.Out.state out.old) (W.Out.state out.new)
        (words_text (spec.statements_front part statements) ++ words_text (spec.rest_words part statements)) result }
{
    write_statements_front(out, part, statements)?;
    write_rest(out, part, statements)
}

fn write_statements_line<W: Out>(
    out: &mut W,
    part: Part,
    statements: usize,
) -> Result<(), WriteFault>
    ensures written { Writes (W.Out.state out.old) (W.Out.state out.new) (shape_text (spec.statements_line part statements)) result }
{
    open_plain(out, 12, 20)?;
    write_statements(out, part, statements)?;
    close_text(out)
}

fn write_some_rows<W: Out>(out: &mut W, rows: usize) -> Result<(), WriteFault>
    ensures written { Writes (W.Out.state out.old) (W.Out.state out.new) (words_text (spec.some_rows rows)) result }
{
    write_numbered(out, b"processors ", rows as u128)
}

// How many processors have a row, and which, where there may be more.
fn write_rows<W: Out>(out: &mut W, rows: usize) -> Result<(), WriteFault>
    ensures written { Writes (W.Out.state out.old) (W.Out.state out.new) (words_text (spec.rows_words rows)) result }
{
    if rows == 0 {
        out.write_all(b"no processor of a pardo")
    } else if rows < 64 {
        write_some_rows(out, rows)
    } else {
        out.write_all(b"64 rows: of those that met at a fault, and of the first others that act")
    }
}

fn write_rows_line<W: Out>(out: &mut W, rows: usize) -> Result<(), WriteFault>
    ensures written { Writes (W.Out.state out.old) (W.Out.state out.new) (shape_text (spec.rows_line rows)) result }
{
    open_plain(out, 12, 38)?;
    write_rows(out, rows)?;
    close_text(out)
}

fn write_lines<W: Out>(
    out: &mut W,
    part: Part,
    statements: usize,
    rows: usize,
) -> Result<(), WriteFault>
    ensures written { Writes (W.Out.state out.old) (W.Out.state out.new) (shape_text (spec.lines part statements rows)) result }
{
    write_statements_line(out, part, statements)?;
    write_rows_line(out, rows)
}

/// Writes what stands above the bands.
pub(crate) fn write_head<W: Out>(
    out: &mut W,
    part: Part,
    statements: usize,
    rows: usize,
) -> Result<(), WriteFault>
    ensures written { Writes (W.Out.state out.old) (W.Out.state out.new) (shape_text (spec.head part statements rows)) result }
{
    write_lines(out, part, statements, rows)?;
    write_key(out)
}
