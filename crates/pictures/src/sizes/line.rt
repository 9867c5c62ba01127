//! The line through the circles of a panel.

ghost use Rattle.std.specs.Prelude.{◌≡◌};
ghost use Rattle.text_out.specs.Out.{Writes};
ghost use Rattle.svg_texts.specs.Shapes.{points_text, shape_text};
ghost use Rattle.pictures.specs.Sizes.Marks as spec;

use crate::sizes::frame::Frame;
use crate::sizes::measure::{mark_y, x_of};
use svg_texts::{close_points, open_points, write_point};
use sweeps::{Ending, SizeRow};
use text_out::{Out, WriteFault};

fn write_ending_point<W: Out>(
    x: u64,
    y: u64,
    ending: &Ending,
    out: &mut W,
) -> Result<(), WriteFault>
    ensures written { Writes (W.Out.state out.old) (W.Out.state out.new) (points_text (spec.ending_point x y ending.now)) result }
{
    match ending {
        Ending::Ended(_) => write_point(out, x as u128, y as u128),
        Ending::GoesOn(_) => write_point(out, x as u128, y as u128),
        Ending::Faulted(_, _) => Ok(()),
        Ending::Refused(_) => Ok(()),
    }
}

fn write_row_point<W: Out>(frame: Frame, row: &SizeRow, out: &mut W) -> Result<(), WriteFault>
    ensures written { Writes (W.Out.state out.old) (W.Out.state out.new) (points_text (spec.row_point frame row.now)) result }
{
    let y = mark_y(frame, &row.ending);
    write_ending_point(x_of(frame, row.size), y, &row.ending, out)
}

fn write_points<W: Out>(frame: Frame, rows: &[SizeRow], out: &mut W) -> Result<(), WriteFault>
    ensures written { Writes (W.Out.state out.old) (W.Out.state out.new) (points_text (spec.points frame rows.now)) result }
{
    for row in rows {
        write_row_point(frame, row, out)?;
    }
    Ok(())
}

/// Writes the line through the circles, in the order of the rows.
pub(crate) fn write_curve<W: Out>(
    frame: Frame,
    rows: &[SizeRow],
    out: &mut W,
) -> Result<(), WriteFault>
    ensures written { Writes (W.Out.state out.old) (W.Out.state out.new) (shape_text (spec.curve frame rows.now)) result }
{
    open_points(out)?;
    write_points(frame, rows, out)?;
    close_points(out)
}
