//! What is what.

ghost use Rattle.pictures.specs.Steps.Picture as spec;
ghost use Rattle.svg_texts.specs.Shapes.{Over, shape_text};
ghost use Rattle.text_out.specs.Out.{Writes};

use crate::steps::marks::{
    Corner, write_ground, write_met_mark, write_read_mark, write_write_mark,
};
use crate::steps::paints::write_note;
use text_out::{Out, WriteFault};

fn write_key_acts<W: Out>(out: &mut W) -> Result<(), WriteFault>
    ensures written { Writes (W.Out.state out.old) (W.Out.state out.new) (shape_text spec.key_acts) result }
{
    write_ground(out, Corner { x: 12, y: 48 })?;
    write_note(out, 78, 61, b"acts")
}

fn write_key_reads<W: Out>(out: &mut W) -> Result<(), WriteFault>
    ensures written { Writes (W.Out.state out.old) (W.Out.state out.new) (shape_text spec.key_reads) result }
{
    write_read_mark(out, Corner { x: 120, y: 48 })?;
    write_note(out, 154, 61, b"reads")
}

fn write_key_writes<W: Out>(out: &mut W) -> Result<(), WriteFault>
    ensures written { Writes (W.Out.state out.old) (W.Out.state out.new) (shape_text spec.key_writes) result }
{
    write_write_mark(out, Corner { x: 170, y: 48 })?;
    write_note(out, 234, 61, b"writes")
}

fn write_key_met<W: Out>(out: &mut W) -> Result<(), WriteFault>
    ensures written { Writes (W.Out.state out.old) (W.Out.state out.new) (shape_text spec.key_met) result }
{
    write_met_mark(out, Corner { x: 284, y: 48 })?;
    write_note(out, 350, 61, b"met at a fault")
}

fn write_key_more<W: Out>(out: &mut W) -> Result<(), WriteFault>
    ensures written { Writes (W.Out.state out.old) (W.Out.state out.new) (shape_text spec.key_more) result }
{
    write_note(out, 450, 61, b"+n")?;
    write_note(out, 474, 61, b"n more act, which have no row")
}

fn write_accesses<W: Out>(out: &mut W) -> Result<(), WriteFault>
    ensures written { Writes (W.Out.state out.old) (W.Out.state out.new) (shape_text (Over spec.key_reads spec.key_writes)) result }
{
    write_key_reads(out)?;
    write_key_writes(out)
}

fn write_others<W: Out>(out: &mut W) -> Result<(), WriteFault>
    ensures written { Writes (W.Out.state out.old) (W.Out.state out.new) (shape_text (Over spec.key_met spec.key_more)) result }
{
    write_key_met(out)?;
    write_key_more(out)
}

/// Writes what is what.
pub(crate) fn write_key<W: Out>(out: &mut W) -> Result<(), WriteFault>
    ensures written { Writes (W.Out.state out.old) (W.Out.state out.new) (shape_text spec.key) result }
{
    write_key_acts(out)?;
    write_accesses(out)?;
    write_others(out)
}
