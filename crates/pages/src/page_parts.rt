//! The parts of a page that are the same for each run.
ghost use Rattle.text_out.specs.Out.{Writes};
ghost use Rattle.pages.specs.Page as spec;

use crate::drawing::{DRAWING, PLACING};
use crate::markup::{NARROW, STYLE};
use crate::moving::{MOVING, READING};
use crate::stepping::{GUIDING, STEPPING};
use crate::telling::{MARKING, TELLING};
use text_out::{Out, WriteFault};

/// How the page looks.
pub(crate) fn write_style<W: Out>(out: &mut W) -> Result<(), WriteFault>
    ensures written { Writes (W.Out.state out.old) (W.Out.state out.new) spec.style result }
{
    out.write_all(&STYLE)?;
    out.write_all(&NARROW)
}

fn write_reading<W: Out>(out: &mut W) -> Result<(), WriteFault>
    ensures written { Writes (W.Out.state out.old) (W.Out.state out.new) spec.reading result }
{
    out.write_all(&READING)?;
    out.write_all(&MOVING)
}

fn write_drawing<W: Out>(out: &mut W) -> Result<(), WriteFault>
    ensures written { Writes (W.Out.state out.old) (W.Out.state out.new) spec.drawing result }
{
    out.write_all(&PLACING)?;
    out.write_all(&DRAWING)
}

fn write_telling<W: Out>(out: &mut W) -> Result<(), WriteFault>
    ensures written { Writes (W.Out.state out.old) (W.Out.state out.new) spec.telling result }
{
    out.write_all(&TELLING)?;
    out.write_all(&MARKING)
}

fn write_stepping<W: Out>(out: &mut W) -> Result<(), WriteFault>
    ensures written { Writes (W.Out.state out.old) (W.Out.state out.new) spec.stepping result }
{
    out.write_all(&STEPPING)?;
    out.write_all(&GUIDING)
}

fn write_earlier<W: Out>(out: &mut W) -> Result<(), WriteFault>
    ensures written { Writes (W.Out.state out.old) (W.Out.state out.new) spec.earlier result }
{
    write_reading(out)?;
    write_drawing(out)
}

fn write_later<W: Out>(out: &mut W) -> Result<(), WriteFault>
    ensures written { Writes (W.Out.state out.old) (W.Out.state out.new) spec.later result }
{
    write_telling(out)?;
    write_stepping(out)
}

/// The script that steps through the run.
pub(crate) fn write_script<W: Out>(out: &mut W) -> Result<(), WriteFault>
    ensures written { Writes (W.Out.state out.old) (W.Out.state out.new) spec.script result }
{
    write_earlier(out)?;
    write_later(out)
}
