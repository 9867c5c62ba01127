//! Which statements of a run are drawn.

ghost use Rattle.std.specs.Prelude.{◌≡◌, ◌&&◌};
ghost use Rattle.journal.specs.Entries.{entry_is};
ghost use Rattle.pictures.specs.Flows.Choice as spec;

use crate::flows::entries::touches;
use journal::Entry;

/// No more statements are drawn, where fewer faulted.
pub(crate) const MOST_COLUMNS: usize = 64;

// Whether the statement of that number is asked for.
fn is_asked(from: usize, to: usize, number: usize) -> bool
    ensures { result ≡ spec.is_asked from to number }
{
    from <= number && number <= to
}

/// Whether it also touched shared memory, or faulted.
pub(crate) fn is_touching(from: usize, to: usize, number: usize, entry: &Entry) -> bool
    ensures { result ≡ spec.is_touching from to (number, entry_is entry.now) }
{
    is_asked(from, to, number) && touches(entry)
}
