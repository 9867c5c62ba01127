//! The marks of a panel.

ghost use Rattle.std.specs.Prelude.{◌≡◌};
ghost use Rattle.text_out.specs.Out.{Writes};
ghost use Rattle.svg_texts.specs.Shapes.{shape_text};
ghost use Rattle.pictures.specs.Sizes.Marks as spec;

use crate::sizes::frame::Frame;
use crate::sizes::shapes::write_row_shape;
use crate::sizes::titles::write_title;
use svg_texts::{close_titled, open_titled, write_title_end};
use sweeps::SizeRow;
use text_out::{Out, WriteFault};

fn write_mark<W: Out>(
    name: &[u8],
    frame: Frame,
    row: &SizeRow,
    out: &mut W,
) -> Result<(), WriteFault>
    ensures written { Writes (W.Out.state out.old) (W.Out.state out.new) (shape_text (spec.mark name.now frame row.now)) result }
{
    open_titled(out)?;
    write_title(name, frame.measure, row, out)?;
    write_title_end(out)?;
    write_row_shape(frame, row, out)?;
    close_titled(out)
}

/// Writes the mark of each row.
pub(crate) fn write_marks<W: Out>(
    name: &[u8],
    frame: Frame,
    rows: &[SizeRow],
    out: &mut W,
) -> Result<(), WriteFault>
    ensures written { Writes (W.Out.state out.old) (W.Out.state out.new) (shape_text (spec.marks name.now frame rows.now)) result }
{
    for row in rows {
        write_mark(name, frame, row, out)?;
    }
    Ok(())
}
