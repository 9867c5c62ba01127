//! Messages in lines that editors read, with the numbers of their refusals.

ghost use Rattle.std.specs.Prelude.{◌≡◌};
ghost use Rattle.text_out.specs.Out.{Writes};
ghost use Rattle.help.specs.Messages.{message_is};
ghost use Rattle.diagnoses.specs.Numbers as spec;

use crate::about::About;
use crate::stops::bytes_in;
use help::{Message, write_gnu};
use program_texts::Stop;
use text_out::{Out, WriteFault};

fn file_or_program<'a>(about: &'a About<'_>) -> &'a [u8]
    ensures { result.now ≡ spec.file_or_program about.now }
{
    match about {
        About::Text(source) => source.name.as_bytes(),
        About::Line { source, .. } => source.name.as_bytes(),
        About::Nothing => b"pramc",
        About::Values { .. } => b"pramc",
        About::File(_) => b"pramc",
    }
}

// The file that a refusal is about, by its name, and else the program.
fn file_in<'a>(stop: &'a Stop<'_>, about: &'a About<'_>) -> &'a [u8]
    ensures { result.now ≡ spec.file_in stop.now about.now }
{
    match stop {
        Stop::Unreadable(name) => name.as_bytes(),
        Stop::Words(_) => file_or_program(about),
        Stop::Number(_) => file_or_program(about),
        Stop::Refused(_) => file_or_program(about),
        Stop::NotVerified(_, _) => file_or_program(about),
        Stop::BadListing(_) => file_or_program(about),
        Stop::WriteFailed => file_or_program(about),
        Stop::BadSize(_, _) => file_or_program(about),
    }
}

/// Writes a message on a refusal in lines that editors read, as `sum.pram:4:7: error: SENTENCE [E6]`. Where it is about no file, the
/// program's name stands in its place. The error is that the writer failed (E17).
pub fn write_gnu_about<W: Out>(
    out: &mut W,
    stop: &Stop<'_>,
    about: &About<'_>,
    message: &Message,
) -> Result<(), WriteFault>
    // Exactly the message's lines for editors are written, by the file that the refusal is about, or a beginning of
    // them and then a failure.
    ensures written { Writes (W.Out.state out.old) (W.Out.state out.new)
        (spec.gnu_about stop.now about.now (message_is message.now)) result }
{
    let file = file_in(stop, about);
    let code = stop.number().code().as_bytes();
    write_gnu(out, file, bytes_in(about), message, code)
}
