//! What is what in a picture.

ghost use Rattle.text_out.specs.Out.{Writes};
ghost use Rattle.svg_texts.specs.Shapes.{shape_text};
ghost use Rattle.pictures.specs.Flows.Picture as spec;

use crate::looks::black;
use svg_texts::{Anchor, Colour, Face, Fill, Form, Paint, Stroke, Weight, write_form, write_label};
use text_out::{Out, WriteFault};

const WHITE: Paint = Paint {
    fill: Fill::Plain(Colour::White),
    stroke: Some(Stroke {
        colour: Colour::Black,
        weight: Weight::Thin,
        dashed: false,
    }),
};

// A form, and what it means.
fn write_meaning<W: Out>(
    out: &mut W,
    form: &Form,
    paint: &Paint,
    x: u128,
    y: u128,
    words: &[u8],
) -> Result<(), WriteFault>
    ensures written { Writes (W.Out.state out.old) (W.Out.state out.new)
        (shape_text (spec.meaning form.now paint.now x y words.now)) result }
{
    write_form(out, form, paint)?;
    write_label(out, x, y, Anchor::Start, Face::Plain, words)
}

fn write_seven<W: Out>(out: &mut W) -> Result<(), WriteFault>
    ensures written { Writes (W.Out.state out.old) (W.Out.state out.new) (shape_text spec.seven_key) result }
{
    let form = Form::Rectangle {
        left: 12,
        top: 48,
        wide: 22,
        tall: 18,
    };
    write_meaning(out, &form, &WHITE, 19, 61, b"7")
}

fn write_box_key<W: Out>(out: &mut W) -> Result<(), WriteFault>
    ensures written { Writes (W.Out.state out.old) (W.Out.state out.new) (shape_text spec.box_key) result }
{
    write_seven(out)?;
    write_label(
        out,
        40,
        61,
        Anchor::Start,
        Face::Plain,
        b"written, with the new value",
    )
}

fn write_line_key<W: Out>(out: &mut W) -> Result<(), WriteFault>
    ensures written { Writes (W.Out.state out.old) (W.Out.state out.new) (shape_text spec.line_key) result }
{
    let form = Form::Line {
        x: 220,
        y: 57,
        to_x: 250,
        to_y: 57,
    };
    write_meaning(
        out,
        &form,
        &black(Weight::Firm, false),
        256,
        61,
        b"from a cell that the writer read",
    )
}

fn write_ring_key<W: Out>(out: &mut W) -> Result<(), WriteFault>
    ensures written { Writes (W.Out.state out.old) (W.Out.state out.new) (shape_text spec.ring_key) result }
{
    let form = Form::Circle { x: 456, y: 57 };
    write_meaning(out, &form, &WHITE, 466, 61, b"read alone")
}

fn write_fault_key<W: Out>(out: &mut W) -> Result<(), WriteFault>
    ensures written { Writes (W.Out.state out.old) (W.Out.state out.new) (shape_text spec.fault_key) result }
{
    let form = Form::Rectangle {
        left: 548,
        top: 48,
        wide: 22,
        tall: 18,
    };
    write_meaning(out, &form, &black(Weight::Heavy, false), 578, 61, b"fault")
}

fn write_dashed_key<W: Out>(out: &mut W) -> Result<(), WriteFault>
    ensures written { Writes (W.Out.state out.old) (W.Out.state out.new) (shape_text spec.dashed_key) result }
{
    let form = Form::Line {
        x: 12,
        y: 80,
        to_x: 46,
        to_y: 80,
    };
    write_meaning(
        out,
        &form,
        &black(Weight::Firm, true),
        54,
        84,
        b"dashed: for a subscript alone",
    )
}

fn write_read_key<W: Out>(out: &mut W) -> Result<(), WriteFault>
    ensures written { Writes (W.Out.state out.old) (W.Out.state out.new) (shape_text spec.read_key) result }
{
    write_line_key(out)?;
    write_ring_key(out)
}

fn write_last_key<W: Out>(out: &mut W) -> Result<(), WriteFault>
    ensures written { Writes (W.Out.state out.old) (W.Out.state out.new) (shape_text spec.last_key) result }
{
    write_fault_key(out)?;
    write_dashed_key(out)
}

/// What is what.
pub(crate) fn write_key<W: Out>(out: &mut W) -> Result<(), WriteFault>
    ensures written { Writes (W.Out.state out.old) (W.Out.state out.new) (shape_text spec.key) result }
{
    write_box_key(out)?;
    write_read_key(out)?;
    write_last_key(out)
}
