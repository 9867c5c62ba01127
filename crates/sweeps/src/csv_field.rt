//! Fields and records of CSV.

ghost use Rattle.std.specs.Prelude.{◌≡◌, ◌∷◌, map};
ghost use Rattle.std.specs.List.{list_any};
ghost use Rattle.text_out.specs.Out.{Writes};
ghost use Rattle.sweeps.specs.CsvText as spec;

use text_out::{Out, WriteFault};

// A comma, a quote, and what ends a line.
fn is_mark(byte: u8) -> bool
    ensures { result ≡ spec.is_mark byte }
{
    byte == b',' || byte == b'"' || byte == b'\r' || byte == b'\n'
}

fn has_mark(field: &[u8]) -> bool
    ensures { result ≡ list_any spec.is_mark field.now }
{
    for byte in field {
        if is_mark(*byte) {
            return true;
        }
    }
    false
}

// A byte between quotes.
fn write_doubled<W: Out>(byte: u8, out: &mut W) -> Result<(), WriteFault>
    ensures written { Writes (W.Out.state out.old) (W.Out.state out.new) (spec.doubled byte) result }
{
    if byte == b'"' {
        out.write_all(b"\"\"")
    } else {
        out.write_all(&[byte])
    }
}

fn write_escaped<W: Out>(field: &[u8], out: &mut W) -> Result<(), WriteFault>
    ensures written { Writes (W.Out.state out.old) (W.Out.state out.new) (spec.escaped field.now) result }
{
    for byte in field {
        write_doubled(*byte, out)?;
    }
    Ok(())
}

fn write_quoted<W: Out>(field: &[u8], out: &mut W) -> Result<(), WriteFault>
    ensures written { Writes (W.Out.state out.old) (W.Out.state out.new) (spec.quoted field.now) result }
{
    out.write_all(b"\"")?;
    write_escaped(field, out)?;
    out.write_all(b"\"")
}

// A field, in quotes where a mark is in it.
fn write_field<W: Out>(field: &[u8], out: &mut W) -> Result<(), WriteFault>
    ensures written { Writes (W.Out.state out.old) (W.Out.state out.new) (spec.field_text field.now) result }
{
    if has_mark(field) {
        write_quoted(field, out)
    } else {
        out.write_all(field)
    }
}

fn write_next_field<W: Out>(field: &[u8], out: &mut W) -> Result<(), WriteFault>
    ensures written { Writes (W.Out.state out.old) (W.Out.state out.new) (spec.next_field field.now) result }
{
    out.write_all(b",")?;
    write_field(field, out)
}

// Fields behind the first, and the end of the line.
fn write_next_fields<W: Out>(fields: &[&[u8]], out: &mut W) -> Result<(), WriteFault>
    ensures written { Writes (W.Out.state out.old) (W.Out.state out.new)
        (spec.next_fields (map (λ f. f.now) fields.now)) result }
{
    for field in fields {
        write_next_field(field, out)?;
    }
    out.write_all(b"\n")
}

/// Writes a record, as RFC 4180 has it but for the end of its line, which is one byte.
pub(crate) fn write_record<W: Out>(
    first: &[u8],
    more: &[&[u8]],
    out: &mut W,
) -> Result<(), WriteFault>
    ensures written { Writes (W.Out.state out.old) (W.Out.state out.new)
        (spec.record_text (first.now ∷ map (λ f. f.now) more.now)) result }
{
    write_field(first, out)?;
    write_next_fields(more, out)
}
