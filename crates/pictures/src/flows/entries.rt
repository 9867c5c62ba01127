//! The parts of an entry.

ghost use Rattle.std.specs.Prelude.{◌≡◌, map};
ghost use Rattle.std.specs.List.{list_any};
ghost use Rattle.journal.specs.Entries.{act_is, entry_is};
ghost use Rattle.pictures.specs.Flows.Choice as spec;

use crate::acts::acts_in;
use journal::{Act, Change, Entry};
use pram_tokens::Location;

/// The cells whose value differs behind it.
pub(crate) fn changes_in(entry: &Entry) -> &[Change]
    ensures { result.now ≡ spec.changes_in (entry_is entry.now) }
{
    match entry {
        Entry::Ran { cells, .. } => cells,
        Entry::Faulted { .. } => &[],
    }
}

/// Where it stands.
pub(crate) fn location_in(entry: &Entry) -> Location
    ensures { result ≡ spec.location_in (entry_is entry.now) }
{
    match entry {
        Entry::Ran { location, .. } => *location,
        Entry::Faulted { location, .. } => *location,
    }
}

/// Whether it faulted.
pub(crate) fn is_fault(entry: &Entry) -> bool
    ensures { result ≡ spec.is_fault (entry_is entry.now) }
{
    match entry {
        Entry::Ran { .. } => false,
        Entry::Faulted { .. } => true,
    }
}

fn is_access(act: &Act) -> bool
    ensures { result ≡ spec.is_access (act_is act.now) }
{
    !act.reads.is_empty() || act.write.is_some()
}

fn any_access(acts: &[Act]) -> bool
    ensures { result ≡ list_any spec.is_access (map act_is acts.now) }
{
    for act in acts {
        if is_access(act) {
            return true;
        }
    }
    false
}

/// Whether it touched shared memory, or faulted.
pub(crate) fn touches(entry: &Entry) -> bool
    ensures { result ≡ spec.touches (entry_is entry.now) }
{
    is_fault(entry) || any_access(acts_in(entry))
}
