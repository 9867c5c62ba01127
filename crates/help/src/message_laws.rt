//! The law of this crate.

ghost use Rattle.std.specs.Prelude.{ℕ, List};
ghost use Rattle.help.specs.Messages.{Message as MessageOf};
ghost use Rattle.help.specs.GnuLines.{AreLines, gnu_lines, gnu_text, things};

/// What editors read of a message is a line for each thing that it says, and none of these lines ends within, whatever the name of the
/// file.
pub fn a_message_is_lines()
    // A message is one line for each thing that it says, and none of them ends within, whatever the name of the file
    // and the text.
    ensures { (name bytes code : List ℕ) (m : MessageOf) → AreLines (gnu_text name bytes m code) (gnu_lines name bytes m code) (things m) }
{}
