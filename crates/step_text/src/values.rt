//! The text of values.
ghost use Rattle.text_out.specs.Out.{Writes};
ghost use Rattle.step_text.specs.ValueTexts as spec;

use itoa::Buffer;
use journal::Change;
use text_out::{Out, WriteFault};

// Values before and behind a statement.
pub(crate) fn write_value<W: Out>(out: &mut W, change: &Change) -> Result<(), WriteFault>
    ensures written { Writes (W.Out.state out.old) (W.Out.state out.new) (spec.value_text change.now) result }
{
    let mut before = Buffer::new();
    let mut after = Buffer::new();
    out.write_parts(&[
        b" ",
        before.format(change.before).as_bytes(),
        b" -> ",
        after.format(change.after).as_bytes(),
    ])
}
