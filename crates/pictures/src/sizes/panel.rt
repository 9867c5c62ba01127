//! A panel: numbers against sizes.

ghost use Rattle.std.specs.Prelude.{◌≡◌, ◌<◌, ◌*◌, ◌^◌};
ghost use Rattle.text_out.specs.Out.{Writes};
ghost use Rattle.svg_texts.specs.Shapes.{shape_text};
ghost use Rattle.pictures.specs.Sizes.Picture as spec;

use crate::sizes::frame::Frame;
use crate::sizes::labels::{Kind, write_labels};
use crate::sizes::line::write_curve;
use crate::sizes::marks::write_marks;
use crate::sizes::measure::{top, y_of};
use svg_texts::{Anchor, Colour, Face, write_label, write_line, write_number};
use sweeps::{Measure, SizeRow};
use text_out::{Out, WriteFault};

fn heading(measure: Measure) -> &'static [u8]
    ensures { result.now ≡ spec.heading measure }
{
    match measure {
        Measure::Time => b"time T",
        Measure::Work => b"work W",
    }
}

// The title, and the two axes.
fn write_axes<W: Out>(frame: Frame, out: &mut W) -> Result<(), WriteFault>
    ensures written { Writes (W.Out.state out.old) (W.Out.state out.new) (shape_text (spec.axes frame)) result }
{
    let title = frame.base.saturating_sub(172) as u128;
    let upper = frame.base.saturating_sub(158) as u128;
    let words = heading(frame.measure);
    let base = frame.base as u128;
    write_label(out, 168, title, Anchor::Start, Face::Bold, words)?;
    write_line(out, 168, upper, 168, base, Colour::Black)?;
    write_line(out, 168, base, 672, base, Colour::Black)
}

// A round number with its line.
fn write_tick_line<W: Out>(y: u64, number: u128, out: &mut W) -> Result<(), WriteFault>
    requires near { y < 2 ^ 32 }
    ensures written { Writes (W.Out.state out.old) (W.Out.state out.new) (shape_text (spec.tick_line y number)) result }
{
    let y = y as u128;
    write_line(out, 162, y, 664, y, Colour::Silver)?;
    write_number(out, 156, y + 4, Anchor::End, Face::Plain, number)
}

// A fifth of what stands at the upper end.
fn step(frame: Frame) -> u128
    ensures step { result ≡ spec.step frame }
    ensures fits { result < 2 ^ 67 }
{
    (top(frame.most) / 5).max(1)
}

fn write_tick<W: Out>(frame: Frame, number: u128, out: &mut W) -> Result<(), WriteFault>
    requires small { number < 2 ^ 100 }
    ensures written { Writes (W.Out.state out.old) (W.Out.state out.new) (shape_text (spec.tick frame number)) result }
{
    if number <= top(frame.most) {
        write_tick_line(y_of(frame, number), number, out)
    } else {
        Ok(())
    }
}

fn write_ticks<W: Out>(frame: Frame, out: &mut W) -> Result<(), WriteFault>
    ensures written { Writes (W.Out.state out.old) (W.Out.state out.new) (shape_text (spec.ticks frame)) result }
{
    for k in 0..6u32 {
        write_tick(frame, u128::from(k) * step(frame), out)?;
    }
    Ok(())
}

// What the sizes are called.
fn write_name<W: Out>(name: &[u8], frame: Frame, out: &mut W) -> Result<(), WriteFault>
    ensures written { Writes (W.Out.state out.old) (W.Out.state out.new) (shape_text (spec.name_label name.now frame)) result }
{
    let y = frame.base as u128 + 4;
    write_label(out, 680, y, Anchor::Start, Face::Plain, name)
}

fn write_ground<W: Out>(name: &[u8], frame: Frame, out: &mut W) -> Result<(), WriteFault>
    ensures written { Writes (W.Out.state out.old) (W.Out.state out.new) (shape_text (spec.ground name.now frame)) result }
{
    write_ticks(frame, out)?;
    write_axes(frame, out)?;
    write_name(name, frame, out)
}

fn write_all_labels<W: Out>(frame: Frame, rows: &[SizeRow], out: &mut W) -> Result<(), WriteFault>
    ensures written { Writes (W.Out.state out.old) (W.Out.state out.new) (shape_text (spec.all_labels frame rows.now)) result }
{
    write_labels(Kind::Sizes, frame, rows, out)?;
    write_labels(Kind::Numbers, frame, rows, out)
}

// What is drawn of the rows.
fn write_figure<W: Out>(
    name: &[u8],
    frame: Frame,
    rows: &[SizeRow],
    out: &mut W,
) -> Result<(), WriteFault>
    ensures written { Writes (W.Out.state out.old) (W.Out.state out.new) (shape_text (spec.figure name.now frame rows.now)) result }
{
    write_curve(frame, rows, out)?;
    write_marks(name, frame, rows, out)?;
    write_all_labels(frame, rows, out)
}

/// Writes a panel.
pub(crate) fn write_panel<W: Out>(
    name: &[u8],
    frame: Frame,
    rows: &[SizeRow],
    out: &mut W,
) -> Result<(), WriteFault>
    ensures written { Writes (W.Out.state out.old) (W.Out.state out.new) (shape_text (spec.panel name.now frame rows.now)) result }
{
    write_ground(name, frame, out)?;
    write_figure(name, frame, rows, out)
}
