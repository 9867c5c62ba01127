//! The name of a declaration.

ghost use Rattle.std.specs.Prelude.{◌≡◌, ◌++◌, slice_get};
ghost use Rattle.text_out.specs.Out.{Writes};
ghost use Rattle.program_texts.specs.Shown.{bounds_text};
ghost use Rattle.all_inputs.specs.ReasonText.{named_text};

use crate::interval_text::decimal;
use itoa::Buffer;
use pram_trees::Layout;
use text_out::{Out, WriteFault};

// An array's bounds, and nothing for a single cell.
fn write_bounds<W: Out>(out: &mut W, bounds: &Option<(i64, i64)>) -> Result<(), WriteFault>
    ensures written { Writes (W.Out.state out.old) (W.Out.state out.new) (bounds_text bounds.now) result }
{
    match bounds {
        None => out.write_all(b""),
        Some((low, high)) => {
            let mut from = Buffer::new();
            let mut to = Buffer::new();
            out.write_parts(&[
                b"[",
                decimal(&mut from, low),
                b"..",
                decimal(&mut to, high),
                b"]",
            ])
        }
    }
}

fn write_declared<W: Out>(
    out: &mut W,
    name: &[u8],
    bounds: &Option<(i64, i64)>,
) -> Result<(), WriteFault>
    ensures written { Writes (W.Out.state out.old) (W.Out.state out.new) (name.now ++ bounds_text bounds.now) result }
{
    out.write_all(name)?;
    write_bounds(out, bounds)
}

/// Writes the name of a declaration by its number, with an array's bounds, and nothing where there is none of that number. The error is
/// that the writer failed (E17).
pub(crate) fn write_named<W: Out>(
    out: &mut W,
    layout: &Layout,
    entry: usize,
) -> Result<(), WriteFault>
    // Exactly that text is written, or a beginning of it and then a failure.
    ensures written { Writes (W.Out.state out.old) (W.Out.state out.new) (named_text (slice_get layout.now entry)) result }
{
    if entry < layout.len() {
        let bounds = layout.bounds(entry);
        write_declared(out, layout.name(entry), &bounds)
    } else {
        out.write_all(b"")
    }
}
