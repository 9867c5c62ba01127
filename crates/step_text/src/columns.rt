//! Where statements stand.
ghost use Rattle.text_out.specs.Out.{Writes};
ghost use Rattle.step_text.specs.Columns as spec;

use crate::telling::Detail;
use itoa::Buffer;
use pram_trees::Location;
use text_out::{Out, WriteFault};
use text_places::place_of;

/// Writes the column of what stands at that offset of the program's text, where that is asked for.
pub(crate) fn write_column<W: Out>(
    out: &mut W,
    detail: &Detail<'_>,
    at: u32,
) -> Result<(), WriteFault>
    ensures written { Writes (W.Out.state out.old) (W.Out.state out.new) (spec.column_text detail.now.columns at) result }
{
    match detail.columns {
        None => out.write_all(b""),
        Some(text) => {
            let mut digits = Buffer::new();
            let place = place_of(text, at as usize);
            out.write_parts(&[b":", digits.format(place.column).as_bytes()])
        }
    }
}

fn write_line_number<W: Out>(out: &mut W, line: u32) -> Result<(), WriteFault>
    ensures written { Writes (W.Out.state out.old) (W.Out.state out.new) (spec.line_text line) result }
{
    let mut digits = Buffer::new();
    out.write_parts(&[b"line ", digits.format(line).as_bytes()])
}

/// Writes the line of a statement, and its column where that is asked for.
pub(crate) fn write_place<W: Out>(
    out: &mut W,
    detail: &Detail<'_>,
    location: Location,
) -> Result<(), WriteFault>
    ensures written { Writes (W.Out.state out.old) (W.Out.state out.new) (spec.place_text detail.now.columns location) result }
{
    write_line_number(out, location.line)?;
    write_column(out, detail, location.offset)
}
