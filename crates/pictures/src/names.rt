//! Cells and faults as letters of a picture.

ghost use Rattle.std.specs.Prelude.{◌≡◌, ◌<◌, ◌++◌, IfSome, codes, decimal, length, slice_get};
ghost use Rattle.std.specs.Fmt.{signed_decimal};
ghost use Rattle.pram_model.specs.Layout.{size};
ghost use Rattle.program_texts.specs.Shown as shown;
ghost use Rattle.svg_texts.specs.Letters.{letters};
ghost use Rattle.text_out.specs.Out.{Writes};

use itoa::Buffer;
use pram_trees::Layout;
use pram_values::{Kind, Place};
use svg_texts::write_letters;
use text_out::{Out, WriteFault};
use write_rules::Fault;

// A subscript, in its brackets.
fn write_subscript<W: Out>(out: &mut W, subscript: i64) -> Result<(), WriteFault>
    ensures written { Writes (W.Out.state out.old) (W.Out.state out.new)
        (codes "[" ++ (signed_decimal subscript ++ codes "]")) result }
{
    let mut digits = Buffer::new();
    out.write_parts(&[b"[", digits.format(subscript).as_bytes(), b"]"])
}

// A cell of an array.
fn write_element<W: Out>(out: &mut W, name: &[u8], subscript: i64) -> Result<(), WriteFault>
    ensures written { Writes (W.Out.state out.old) (W.Out.state out.new)
        (letters name.now ++ (codes "[" ++ (signed_decimal subscript ++ codes "]"))) result }
{
    write_letters(out, name)?;
    write_subscript(out, subscript)
}

// A cell by its number among those of a declaration.
fn write_cell_of<W: Out>(
    out: &mut W,
    layout: &Layout,
    i: usize,
    number: u32,
) -> Result<(), WriteFault>
    requires entry { i < length layout.now }
    requires inside { IfSome (slice_get layout.now i) (λ e. number < size e.bounds) }
    ensures written { IfSome (slice_get layout.now i) (λ e. Writes (W.Out.state out.old) (W.Out.state out.new)
        (letters e.name ++ shown.subscript_text e.bounds number) result) }
{
    match layout.bounds(i) {
        None => write_letters(out, layout.name(i)),
        Some(_) => write_element(out, layout.name(i), layout.subscript(i, number)),
    }
}

/// Writes a cell by its number among those of all declarations, counted from 0, as letters of a picture.
pub(crate) fn write_cell_letters<W: Out>(
    out: &mut W,
    layout: &Layout,
    cell: usize,
) -> Result<(), WriteFault>
    ensures written { Writes (W.Out.state out.old) (W.Out.state out.new) (letters (shown.cell_text layout.now cell)) result }
{
    let mut rest = cell;
    for i in 0..layout.len() {
        let size = layout.size(i) as usize;
        if rest < size {
            return write_cell_of(out, layout, i, rest as u32);
        }
        rest -= size;
    }
    Ok(())
}

// What was wrong.
fn write_kind<W: Out>(out: &mut W, kind: Kind) -> Result<(), WriteFault>
    ensures written { Writes (W.Out.state out.old) (W.Out.state out.new)
        (codes "fault " ++ (shown.kind_text kind ++ codes " ")) result }
{
    match kind {
        Kind::Overflow => out.write_all(b"fault overflow "),
        Kind::DivideByZero => out.write_all(b"fault divide-by-zero "),
        Kind::OutOfRange => out.write_all(b"fault out-of-range "),
        Kind::TooWide => out.write_all(b"fault too-wide "),
        Kind::ReadConflict => out.write_all(b"fault read-conflict "),
        Kind::WriteConflict => out.write_all(b"fault write-conflict "),
    }
}

fn write_processor<W: Out>(out: &mut W, index: i64) -> Result<(), WriteFault>
    ensures written { Writes (W.Out.state out.old) (W.Out.state out.new)
        (codes "processor " ++ signed_decimal index) result }
{
    let mut digits = Buffer::new();
    out.write_parts(&[b"processor ", digits.format(index).as_bytes()])
}

// Where it was.
fn write_place<W: Out>(out: &mut W, layout: &Layout, place: Place) -> Result<(), WriteFault>
    ensures written { Writes (W.Out.state out.old) (W.Out.state out.new) (letters (shown.place_text layout.now place)) result }
{
    match place {
        Place::All => out.write_all(b"all"),
        Place::Processor(index) => write_processor(out, index),
        Place::Cell(cell) => write_cell_letters(out, layout, cell as usize),
    }
}

fn write_line<W: Out>(out: &mut W, line: u32) -> Result<(), WriteFault>
    ensures written { Writes (W.Out.state out.old) (W.Out.state out.new) (codes " line " ++ decimal line) result }
{
    let mut digits = Buffer::new();
    out.write_parts(&[b" line ", digits.format(line).as_bytes()])
}

/// Writes a fault, as `fault read-conflict a[1] line 4`, as letters of a picture.
pub(crate) fn write_fault_letters<W: Out>(
    out: &mut W,
    layout: &Layout,
    fault: &Fault,
) -> Result<(), WriteFault>
    ensures written { Writes (W.Out.state out.old) (W.Out.state out.new) (letters (shown.fault_text layout.now fault.now)) result }
{
    write_kind(out, fault.kind)?;
    write_place(out, layout, fault.place)?;
    write_line(out, fault.line)
}
