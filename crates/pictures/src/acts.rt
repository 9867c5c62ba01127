//! What is done in a statement.

ghost use Rattle.std.specs.Prelude.{◌≡◌, map};
ghost use Rattle.journal.specs.Entries.{act_is, entry_is};
ghost use Rattle.pictures.specs.Acts as spec;

use journal::{Act, Entry};

/// What each processor did.
pub(crate) fn acts_in(entry: &Entry) -> &[Act]
    ensures { map act_is result.now ≡ spec.acts_in (entry_is entry.now) }
{
    match entry {
        Entry::Ran { acts, .. } => acts,
        Entry::Faulted { acts, .. } => acts,
    }
}
