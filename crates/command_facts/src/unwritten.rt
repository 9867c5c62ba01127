//! Why a file isn't written.

ghost use Rattle.command_facts.specs.Refused.{IsUnwritten};

use diagnoses::{About, Halted, Unread};
use program_texts::{Refusal, Stop};
use system_files::WriteRefused;

/// Why the file of that name isn't written, in the words of calls.
pub fn halted_write<'a>(name: &'a str, why: WriteRefused) -> Halted<'a>
    // It is refused for its name, as one that can't be written, or for want of memory.
    ensures { IsUnwritten name.now result.stop result.about }
{
    match why {
        WriteRefused::Unwritable => Halted {
            stop: Stop::Unreadable(name),
            about: About::File(Unread::Unwritable),
        },
        WriteRefused::OutOfMemory => Halted {
            stop: Stop::Refused(Refusal::OutOfMemory),
            about: About::Nothing,
        },
    }
}
