//! Which statements of a run are drawn.

ghost use Rattle.std.specs.Prelude.{◌≡◌, ◌≤◌, ◌+◌, ◌-◌, ◌^◌, length, map, min};
ghost use Rattle.journal.specs.Entries.{entry_is};
ghost use Rattle.pictures.specs.Steps.Drawn as spec;
ghost use Rattle.pictures.specs.Steps.Measures as measures;

use journal::Entry;

/// No more statements are drawn: of more the first, and the last.
pub(crate) const MOST_DRAWN: usize = 112;

/// So many of the first then.
pub(crate) const FIRST_DRAWN: usize = 96;

const LAST_DRAWN: usize = 16;

/// Of more than 112 statements the first 96, else all.
pub(crate) fn first_drawn(entries: &[Entry]) -> &[Entry]
    ensures first { map entry_is result.now ≡ spec.first_drawn (map entry_is entries.now) }
    ensures few { length result.now ≤ 112 }
{
    if entries.len() > MOST_DRAWN {
        entries.split_at(FIRST_DRAWN).0
    } else {
        entries
    }
}

/// Of more than 112 statements the last 16, else none.
pub(crate) fn last_drawn(entries: &[Entry]) -> &[Entry]
    ensures last { map entry_is result.now ≡ spec.last_drawn (map entry_is entries.now) }
    ensures few { length result.now ≤ 16 }
{
    if entries.len() > MOST_DRAWN {
        entries.split_at(entries.len() - LAST_DRAWN).1
    } else {
        &[]
    }
}

/// The number of the first of the last ones, of so many.
pub(crate) fn last_number(statements: u32) -> usize
    ensures number { result ≡ (statements - 16) + 1 }
    ensures small { result ≤ 2 ^ 32 }
{
    (statements as usize).saturating_sub(LAST_DRAWN) + 1
}

/// How many statements are drawn, of so many.
pub(crate) fn count_drawn(statements: usize) -> usize
    ensures count { result ≡ measures.count_drawn statements }
    ensures few { result ≤ 112 }
{
    statements.min(MOST_DRAWN)
}

/// The indices of those that met at a fault.
pub(crate) fn met_in(entry: &Entry) -> &[i64]
    ensures { result.now ≡ spec.met_in (entry_is entry.now) }
{
    match entry {
        Entry::Ran { .. } => &[],
        Entry::Faulted { met, .. } => met,
    }
}

/// Those that met at the last statement.
pub(crate) fn met_of(entries: &[Entry]) -> &[i64]
    ensures { result.now ≡ spec.met_of (map entry_is entries.now) }
{
    match entries.last() {
        None => &[],
        Some(entry) => met_in(entry),
    }
}
