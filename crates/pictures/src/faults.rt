//! The line that says what was wrong.

ghost use Rattle.pictures.specs.Faults as spec;
ghost use Rattle.svg_texts.specs.Shapes.{shape_text};
ghost use Rattle.text_out.specs.Out.{Writes};

use crate::names::write_fault_letters;
use pram_trees::Layout;
use svg_texts::{Anchor, Face, close_text, open_label};
use text_out::{Out, WriteFault};
use write_rules::Fault;

/// Writes it at a height.
pub(crate) fn write_fault_line<W: Out>(
    out: &mut W,
    layout: &Layout,
    y: u128,
    fault: &Fault,
) -> Result<(), WriteFault>
    ensures written { Writes (W.Out.state out.old) (W.Out.state out.new) (shape_text (spec.fault_line layout.now y fault.now)) result }
{
    open_label(out, 12, y, Anchor::Start, Face::Plain)?;
    write_fault_letters(out, layout, fault)?;
    close_text(out)
}
