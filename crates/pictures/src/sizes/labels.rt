//! The labels of a panel.

ghost use Rattle.std.specs.Prelude.{◌≡◌, ◌<◌, length, decimal};
ghost use Rattle.text_out.specs.Out.{Writes};
ghost use Rattle.svg_texts.specs.Shapes.{shape_text};
ghost use Rattle.pictures.specs.Sizes.Labels as spec;

use crate::sizes::frame::Frame;
use crate::sizes::measure::{number_of, x_of, y_of};
use itoa::Buffer;
use svg_texts::{Anchor, Face, write_number};
use sweeps::{Ending, SizeRow};
use text_out::{Out, WriteFault};

/// What labels tell: sizes below the axis, or numbers above their marks.
#[derive(Clone, Copy)]
pub(crate) enum Kind {
    Sizes,
    Numbers,
}

/// A number, and where it is written.
#[derive(Clone, Copy)]
pub(crate) struct Label {
    x: u64,
    y: u64,
    number: u64,
}

fn size_label(frame: Frame, size: u64) -> Label
    ensures { result ≡ spec.size_label frame size }
{
    Label {
        x: x_of(frame, size),
        y: u64::from(frame.base) + 18,
        number: size,
    }
}

fn number_label(frame: Frame, size: u64, number: u64) -> Label
    ensures { result ≡ spec.number_label frame size number }
{
    Label {
        x: x_of(frame, size),
        y: y_of(frame, u128::from(number)).saturating_sub(8),
        number,
    }
}

fn ending_label(frame: Frame, size: u64, ending: &Ending) -> Option<Label>
    ensures { result ≡ spec.ending_label frame size ending.now }
{
    match ending {
        Ending::Ended(_) => Some(number_label(frame, size, number_of(frame.measure, ending))),
        Ending::GoesOn(_) => Some(number_label(frame, size, number_of(frame.measure, ending))),
        Ending::Faulted(_, _) => Some(number_label(frame, size, number_of(frame.measure, ending))),
        Ending::Refused(_) => None,
    }
}

fn label_of(kind: Kind, frame: Frame, row: &SizeRow) -> Option<Label>
    ensures { result ≡ spec.label_of kind frame row.now }
{
    match kind {
        Kind::Sizes => Some(size_label(frame, row.size)),
        Kind::Numbers => ending_label(frame, row.size, &row.ending),
    }
}

fn digit_count(number: u64) -> usize
    ensures count { result ≡ length (decimal number) }
    ensures few { result < 64 }
{
    let mut digits = Buffer::new();
    digits.format(number).as_bytes().len()
}

// Whether it doesn't touch the last one.
fn is_far(last: u64, label: &Label) -> bool
    ensures { result ≡ spec.is_far last label.now }
{
    let apart = label
        .x
        .saturating_sub(last)
        .max(last.saturating_sub(label.x));
    7 * digit_count(label.number) as u64 + 6 <= apart
}

fn write_text<W: Out>(label: &Label, out: &mut W) -> Result<(), WriteFault>
    ensures written { Writes (W.Out.state out.old) (W.Out.state out.new) (shape_text (spec.written label.now)) result }
{
    write_number(
        out,
        label.x as u128,
        label.y as u128,
        Anchor::Middle,
        Face::Plain,
        label.number as u128,
    )
}

fn write_far<W: Out>(last: u64, label: &Label, out: &mut W) -> Result<(), WriteFault>
    ensures written { Writes (W.Out.state out.old) (W.Out.state out.new) (shape_text (spec.label_shape last (Some label.now))) result }
{
    if is_far(last, label) {
        write_text(label, out)
    } else {
        Ok(())
    }
}

fn write_label<W: Out>(last: u64, label: Option<Label>, out: &mut W) -> Result<(), WriteFault>
    ensures written { Writes (W.Out.state out.old) (W.Out.state out.new) (shape_text (spec.label_shape last label)) result }
{
    match label {
        None => Ok(()),
        Some(label) => write_far(last, &label, out),
    }
}

// Where the last label stands behind this one.
fn last_of(last: u64, label: Option<Label>) -> u64
    ensures { result ≡ spec.last_of last label }
{
    match label {
        None => last,
        Some(label) => { if is_far(last, &label) { label.x } else { last } }
    }
}

/// Writes the labels of a kind, without those that would touch the last one.
pub(crate) fn write_labels<W: Out>(
    kind: Kind,
    frame: Frame,
    rows: &[SizeRow],
    out: &mut W,
) -> Result<(), WriteFault>
    ensures written { Writes (W.Out.state out.old) (W.Out.state out.new) (shape_text (spec.labels kind frame 0 rows.now)) result }
{
    let mut last = 0u64;
    for row in rows {
        let label = label_of(kind, frame, row);
        write_label(last, label, out)?;
        last = last_of(last, label);
    }
    Ok(())
}
