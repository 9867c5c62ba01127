//! Why a call stops, in the lines that editors read.

ghost use Rattle.std.specs.Prelude.{◌≡◌, ℕ, List, map};
ghost use Rattle.std.specs.String.{string_bytes};
ghost use Rattle.text_out.specs.Out.{Writes};
ghost use Rattle.help.specs.Messages.{message_is};
ghost use Rattle.command_facts.specs.Editors as spec;

use crate::messages::message_for;
use diagnoses::{Halted, write_gnu_about, write_refused_line};
use help::Message;
use std::alloc::{AllocError, Global};
use text_out::{Out, WriteFault};

fn write_message_for<W: Out>(
    out: &mut W,
    halted: &Halted<'_>,
    message: &Message,
) -> Result<(), WriteFault>
    ensures written { Writes (W.Out.state out.old) (W.Out.state out.new)
        (spec.editor_text halted.now.stop halted.now.about (message_is message.now)) result }
{
    if message.sentence.is_empty() {
        write_refused_line(out, &halted.stop, &halted.about)
    } else {
        write_gnu_about(out, &halted.stop, &halted.about, message)
    }
}

// The line of the refusal, and that memory for the rest was refused.
fn write_unsaid<W: Out>(out: &mut W, halted: &Halted<'_>) -> Result<(), WriteFault>
    ensures written { Writes (W.Out.state out.old) (W.Out.state out.new)
        (spec.unsaid_text halted.now.stop halted.now.about) result }
{
    write_refused_line(out, &halted.stop, &halted.about)?;
    out.write_all(b"memory was refused for what there is to say of it\n")
}

/// Writes why a call of these words stops in the lines that editors read, as `sum.pram:6:3: error: SENTENCE [E6]`, with notes behind it;
/// where there is nothing to say its line, and the text of the parser of command lines as it is. The error is that the writer failed (E17).
pub fn write_for_editors<W: Out>(
    alloc: Global,
    out: &mut W,
    words: &[String],
    halted: &Halted<'_>,
) -> Result<(), WriteFault>
    // Exactly that message's lines for editors are written, or the refusal's line where nothing is to say or memory was
    // refused, or a beginning and then a failure.
    ensures written { (text : List ℕ)
        × spec.IsForEditors (map string_bytes words.now) halted.now.stop halted.now.about text
        × Writes (W.Out.state out.old) (W.Out.state out.new) text result }
{
    match message_for(alloc, words, halted) {
        Ok(message) => write_message_for(out, halted, &message),
        Err(AllocError) => write_unsaid(out, halted),
    }
}
