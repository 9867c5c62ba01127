//! The parts of an outcome's text.

ghost use Rattle.std.specs.Prelude.{◌≡◌, ◌++◌, ◌<◌, IfSome, Option, drop, length, slice_get, take};
ghost use Rattle.std.specs.Fmt.{signed_decimal};
ghost use Rattle.pram_model.specs.Layout.{size};
ghost use Rattle.text_out.specs.Out.{Writes};
ghost use Rattle.program_texts.specs.Shown as shown;

use itoa::Buffer;
use pram_trees::Layout;
use text_out::{Out, WriteFault};

// A number in decimal.
pub(crate) fn decimal<'a>(digits: &'a mut Buffer, number: &i64) -> &'a [u8]
    ensures { result.now ≡ signed_decimal number.now }
{
    digits.format(*number).as_bytes()
}

/// Writes output items in decimal, each on a line. The error is that the writer failed (E17).
pub fn write_items<W: Out>(out: &mut W, items: &[i64]) -> Result<(), WriteFault>
    ensures written { Writes (W.Out.state out.old) (W.Out.state out.new) (shown.item_lines items.now) result }
{
    for item in items {
        let mut digits = Buffer::new();
        out.write_parts(&[decimal(&mut digits, item), b"\n"])?;
    }
    Ok(())
}

/// Writes values in decimal, each behind a space. The error is that the writer failed (E17).
pub fn write_values<W: Out>(out: &mut W, values: &[i64]) -> Result<(), WriteFault>
    ensures written { Writes (W.Out.state out.old) (W.Out.state out.new) (shown.spaced values.now) result }
{
    for value in values {
        let mut digits = Buffer::new();
        out.write_parts(&[b" ", decimal(&mut digits, value)])?;
    }
    Ok(())
}

// The name of a declaration, with an array's bounds.
fn write_entry_name<W: Out>(
    out: &mut W,
    name: &[u8],
    bounds: &Option<(i64, i64)>,
) -> Result<(), WriteFault>
    ensures written { Writes (W.Out.state out.old) (W.Out.state out.new) (name.now ++ shown.bounds_text bounds.now) result }
{
    match bounds {
        None => out.write_all(name),
        Some((low, high)) => {
            let mut from = Buffer::new();
            let mut to = Buffer::new();
            out.write_parts(&[
                name,
                b"[",
                decimal(&mut from, low),
                b"..",
                decimal(&mut to, high),
                b"]",
            ])
        }
    }
}

/// Writes the values of a declaration's cells on a line, as `s = 7` or `a[1..4] = 4 3 2 1`. The error is that the writer failed (E17).
pub fn write_entry<W: Out>(
    out: &mut W,
    name: &[u8],
    bounds: &Option<(i64, i64)>,
    values: &[i64],
) -> Result<(), WriteFault>
    ensures written { Writes (W.Out.state out.old) (W.Out.state out.new)
        (shown.entry_line record { name = name.now; bounds = bounds.now } values.now) result }
{
    write_entry_name(out, name, bounds)?;
    out.write_all(b" =")?;
    write_values(out, values)?;
    out.write_all(b"\n")
}

// The first values, as many as that, and the others.
fn parted(values: &[i64], count: usize) -> (&[i64], &[i64])
    ensures first { result.0.now ≡ take count values.now }
    ensures others { result.1.now ≡ drop count values.now }
{
    if count < values.len() {
        values.split_at(count)
    } else {
        (values, &[])
    }
}

// The values of all cells, a line for each declaration.
pub(crate) fn write_memory<W: Out>(
    out: &mut W,
    layout: &Layout,
    memory: &[i64],
) -> Result<(), WriteFault>
    ensures written { Writes (W.Out.state out.old) (W.Out.state out.new) (shown.memory_lines layout.now memory.now) result }
{
    let mut rest = memory;
    for i in 0..layout.len() {
        let (values, behind) = parted(rest, layout.size(i) as usize);
        let bounds = layout.bounds(i);
        write_entry(out, layout.name(i), &bounds, values)?;
        rest = behind;
    }
    Ok(())
}

// A cell by its number among those of a declaration.
fn write_cell_of<W: Out>(
    out: &mut W,
    layout: &Layout,
    i: usize,
    number: u32,
) -> Result<(), WriteFault>
    requires entry { i < length layout.now }
    requires inside { IfSome (slice_get layout.now i) (λ e. number < size e.bounds) }
    ensures written { IfSome (slice_get layout.now i) (λ e. Writes (W.Out.state out.old) (W.Out.state out.new)
        (e.name ++ shown.subscript_text e.bounds number) result) }
{
    match layout.bounds(i) {
        None => out.write_all(layout.name(i)),
        Some(_) => {
            let subscript = layout.subscript(i, number);
            let mut digits = Buffer::new();
            out.write_parts(&[layout.name(i), b"[", decimal(&mut digits, &subscript), b"]"])
        }
    }
}

/// Writes a cell by its number among those of all declarations, counted from 0: `s`, or `a[2]`. The
/// error is that the writer failed (E17).
pub fn write_cell<W: Out>(out: &mut W, layout: &Layout, cell: usize) -> Result<(), WriteFault>
    ensures written { Writes (W.Out.state out.old) (W.Out.state out.new) (shown.cell_text layout.now cell) result }
{
    let mut rest = cell;
    for i in 0..layout.len() {
        let size = layout.size(i) as usize;
        if rest < size {
            return write_cell_of(out, layout, i, rest as u32);
        }
        rest -= size;
    }
    Ok(())
}
