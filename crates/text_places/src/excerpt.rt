//! A line of a text, with a caret below a place.

ghost use Rattle.std.specs.Prelude.{◌≡◌, ◌<◌, ◌^◌, ◌++◌, map};
ghost use Rattle.text_out.specs.Out.{Writes};
ghost use Rattle.text_places.specs.Excerpts as spec;

use crate::escaped::write_escaped;
use crate::lines::line_text;
use crate::place::{Place, front, place_of};
use itoa::Buffer;
use text_out::{Out, WriteFault};

// A byte as it is shown: a printable ASCII character and a tab as they are, and `?` for any other.
fn shown_byte(byte: u8) -> u8
    ensures { result ≡ spec.shown_byte byte }
{
    if byte == b'\t' || (byte >= b' ' && byte < 127) {
        byte
    } else {
        b'?'
    }
}

// What stands above the caret's line below a byte: a tab below a tab, and else a space.
fn blank_byte(byte: u8) -> u8
    ensures { result ≡ spec.blank_byte byte }
{
    if byte == b'\t' { b'\t' } else { b' ' }
}

// A line without the carriage return at its end.
fn without_return(line: &[u8]) -> &[u8]
    ensures { result.now ≡ spec.without_return line.now }
{
    let count = line.len();
    if count > 0 && line[count - 1] == b'\r' {
        &line[..count - 1]
    } else {
        line
    }
}

/// Writes bytes of a text so that they steer no terminal: whatever is no printable ASCII and no tab is shown as `?`. The error is that
/// the writer failed (E17).
pub fn write_shown<W: Out>(out: &mut W, bytes: &[u8]) -> Result<(), WriteFault>
    ensures written { Writes (W.Out.state out.old) (W.Out.state out.new) (spec.shown bytes.now) result }
{
    for byte in bytes {
        out.write_all(&[shown_byte(*byte)])?;
    }
    Ok(())
}

/// Writes the line of that number of a text, from 1, so that it steers no terminal, and the end of the line. The error is that the writer
/// failed (E17).
pub fn write_line<W: Out>(out: &mut W, text: &[u8], line: usize) -> Result<(), WriteFault>
    ensures written { Writes (W.Out.state out.old) (W.Out.state out.new) (spec.shown_line text.now line) result }
{
    write_shown(out, without_return(line_text(text, line)))?;
    out.write_all(b"\n")
}

// Blanks below bytes.
fn write_blanks<W: Out>(out: &mut W, bytes: &[u8]) -> Result<(), WriteFault>
    ensures written { Writes (W.Out.state out.old) (W.Out.state out.new) (map spec.blank_byte bytes.now) result }
{
    for byte in bytes {
        out.write_all(&[blank_byte(*byte)])?;
    }
    Ok(())
}

// A caret below a column of a line, whose tabs are repeated before it.
fn write_caret<W: Out>(out: &mut W, line: &[u8], column: usize) -> Result<(), WriteFault>
    requires column { 0 < column }
    ensures written { Writes (W.Out.state out.old) (W.Out.state out.new) (spec.caret_line line.now column) result }
{
    write_blanks(out, front(line, column - 1))?;
    out.write_all(b"^\n")
}

// `:4:7`, to the end of the line.
fn write_numbers<W: Out>(out: &mut W, place: Place) -> Result<(), WriteFault>
    ensures written { Writes (W.Out.state out.old) (W.Out.state out.new) (spec.place_numbers place) result }
{
    let mut line = Buffer::new();
    let mut column = Buffer::new();
    out.write_parts(&[
        b":",
        line.format(place.line).as_bytes(),
        b":",
        column.format(place.column).as_bytes(),
        b"\n",
    ])
}

// Where a place is: `sum.pram:4:7`.
fn write_place<W: Out>(out: &mut W, name: &[u8], place: Place) -> Result<(), WriteFault>
    ensures written { Writes (W.Out.state out.old) (W.Out.state out.new) (spec.place_line name.now place) result }
{
    write_escaped(out, name)?;
    write_numbers(out, place)
}

// The line of a place, and below it a caret at its column.
fn write_marked<W: Out>(out: &mut W, text: &[u8], place: Place) -> Result<(), WriteFault>
    requires column { 0 < place.column }
    ensures written { Writes (W.Out.state out.old) (W.Out.state out.new) (spec.marked_line text.now place) result }
{
    write_line(out, text, place.line)?;
    write_caret(out, line_text(text, place.line), place.column)
}

/// Writes where the byte of an offset stands in the text of that name, as `sum.pram:4:7`, then its line, and a caret below the byte.
/// Behind the last byte it is the text's end that is shown so. The error is that the writer failed (E17).
pub fn write_excerpt<W: Out>(
    out: &mut W,
    name: &[u8],
    text: &[u8],
    at: usize,
) -> Result<(), WriteFault>
    // Exactly the text of the place is written, its line and a caret below it, or a beginning of it and then a failure.
    ensures written { Writes (W.Out.state out.old) (W.Out.state out.new) (spec.excerpt name.now text.now at) result }
{
    let place = place_of(text, at);
    write_place(out, name, place)?;
    write_marked(out, text, place)
}

// `:4`, to the end of the line.
fn write_number<W: Out>(out: &mut W, line: usize) -> Result<(), WriteFault>
    ensures written { Writes (W.Out.state out.old) (W.Out.state out.new) (spec.line_number line) result }
{
    let mut digits = Buffer::new();
    out.write_parts(&[b":", digits.format(line).as_bytes(), b"\n"])
}

// Where a line is: `sum.pram:4`.
fn write_line_place<W: Out>(out: &mut W, name: &[u8], line: usize) -> Result<(), WriteFault>
    ensures written { Writes (W.Out.state out.old) (W.Out.state out.new) (spec.line_place name.now line) result }
{
    write_escaped(out, name)?;
    write_number(out, line)
}

/// Writes which line of the text of that name is meant, as `sum.pram:4`, and the line. The error is that the writer failed (E17).
pub fn write_line_excerpt<W: Out>(
    out: &mut W,
    name: &[u8],
    text: &[u8],
    line: usize,
) -> Result<(), WriteFault>
    // Exactly the text of the line's number and of the line is written, or a beginning of it and then a failure.
    ensures written { Writes (W.Out.state out.old) (W.Out.state out.new) (spec.line_excerpt name.now text.now line) result }
{
    write_line_place(out, name, line)?;
    write_line(out, text, line)
}
