//! What is written to standard output.

ghost use Rattle.std.specs.Prelude.{string_bytes};
ghost use Rattle.command_facts.specs.Written.{Wrote};

use program_texts::{Status, Stop, finish};
use text_out::Out;

/// Writes a text of JSON lines, whole.
pub(crate) fn write_json<'a, O: Out>(
    out: &mut O,
    text: &String,
    status: Status,
) -> Result<Status, Stop<'a>>
    ensures written { Wrote status (string_bytes text.now) (O.Out.state out.old) (O.Out.state out.new) result }
{
    out.write_all(text.as_bytes())?;
    finish(out, status)
}
