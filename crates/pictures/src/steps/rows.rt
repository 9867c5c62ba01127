//! Which processors have a row.

ghost use Rattle.std.specs.Prelude.{◌≡◌, ◌≤◌, ◌+◌, ◌-◌, [], length, map, slice_index_or};
ghost use Rattle.std.specs.Ordering.{int_eq};
ghost use Rattle.journal.specs.Entries.{act_is, entry_is};
ghost use Rattle.pictures.specs.Steps.Drawn as spec;

use crate::acts::acts_in;
use crate::steps::drawn::{first_drawn, last_drawn, met_of};
use arrayvec::ArrayVec;
use journal::{Act, Entry};

// No more indices have a row.
const MOST_ROWS: usize = 64;

/// Indices that have a row, in ascending order, with room for one more.
pub(crate) type Rows = ArrayVec<i64, 65>;

// How many stand before an index.
fn ahead(rows: &[i64], index: i64) -> usize
    ensures value { result ≡ spec.ahead rows.now index }
    ensures within { result ≤ length rows.now }
{
    let mut at = 0;
    while at < rows.len() && rows[at] < index {
        at += 1;
    }
    at
}

// Whether it is the same index.
fn is_same(index: i64, other: i64) -> bool
    ensures { result ≡ int_eq index other }
{
    index == other
}

/// How many stand before an index, or all where it isn't there.
pub(crate) fn place_of(rows: &[i64], index: i64) -> usize
    ensures value { result ≡ spec.place_of rows.now index }
    ensures within { result ≤ length rows.now }
{
    let mut at = 0;
    while at < rows.len() && !is_same(rows[at], index) {
        at += 1;
    }
    at
}

// One more among them.
fn insert(rows: &mut Rows, index: i64)
    requires few { length rows.old.items ≤ 64 }
    ensures inserted { rows.new.items ≡ spec.inserted index rows.old.items }
    ensures one { length rows.new.items ≤ length rows.old.items + 1 }
{
    let at = ahead(rows.as_slice(), index);
    if at < rows.len() && is_same(rows.as_slice()[at], index) {
        return;
    }
    rows.insert(at, index);
}

// Of these and one more the first.
fn offer(rows: &mut Rows, most: usize, index: i64)
    requires few { length rows.old.items ≤ 64 }
    requires most { most ≤ 64 }
    ensures offered { rows.new.items ≡ spec.offered most rows.old.items index }
    ensures few { length rows.new.items ≤ most }
{
    insert(rows, index);
    rows.truncate(most);
}

// The first of these and those.
fn offer_all(rows: &mut Rows, indices: &[i64])
    requires few { length rows.old.items ≤ 64 }
    ensures all { rows.new.items ≡ spec.with_all rows.old.items indices.now }
    ensures few { length rows.new.items ≤ 64 }
{
    for index in indices {
        offer(rows, MOST_ROWS, *index);
    }
}

// One that acts, unless it is among those that have a row.
fn offer_beside(those: &[i64], rows: &mut Rows, index: i64)
    requires those { length those.now ≤ 64 }
    requires few { length rows.old.items ≤ 64 - length those.now }
    ensures offered { rows.new.items ≡ spec.offered_beside those.now rows.old.items index }
    ensures few { length rows.new.items ≤ 64 - length those.now }
{
    if place_of(those, index) < those.len() {
        return;
    }
    offer(rows, MOST_ROWS - those.len(), index);
}

fn offer_processor(those: &[i64], rows: &mut Rows, processor: Option<i64>)
    requires those { length those.now ≤ 64 }
    requires few { length rows.old.items ≤ 64 - length those.now }
    ensures offered { rows.new.items ≡ spec.with_others those.now rows.old.items (spec.index_of processor) }
    ensures few { length rows.new.items ≤ 64 - length those.now }
{
    match processor {
        None => {}
        Some(index) => offer_beside(those, rows, index),
    }
}

fn offer_acts(those: &[i64], rows: &mut Rows, acts: &[Act])
    requires those { length those.now ≤ 64 }
    requires few { length rows.old.items ≤ 64 - length those.now }
    ensures offered { rows.new.items ≡ spec.with_others those.now rows.old.items (spec.indices (map act_is acts.now)) }
    ensures few { length rows.new.items ≤ 64 - length those.now }
{
    for act in acts {
        offer_processor(those, rows, act.processor);
    }
}

fn offer_entries(those: &[i64], rows: &mut Rows, entries: &[Entry])
    requires those { length those.now ≤ 64 }
    requires few { length rows.old.items ≤ 64 - length those.now }
    ensures offered { rows.new.items ≡ spec.with_others those.now rows.old.items (spec.acting (map entry_is entries.now)) }
    ensures few { length rows.new.items ≤ 64 - length those.now }
{
    for entry in entries {
        offer_acts(those, rows, acts_in(entry));
    }
}

// Those that act in what is drawn and aren't among these, as many as there is room for.
fn others(those: &[i64], entries: &[Entry]) -> Rows
    requires those { length those.now ≤ 64 }
    ensures others { result.items ≡ spec.with_others those.now [] (spec.acting_drawn (map entry_is entries.now)) }
    ensures few { length result.items ≤ 64 - length those.now }
{
    let mut rows = Rows::new();
    offer_entries(those, &mut rows, first_drawn(entries));
    offer_entries(those, &mut rows, last_drawn(entries));
    rows
}

// Those that met at a fault, at most 64.
fn those_met(entries: &[Entry]) -> Rows
    ensures met { result.items ≡ spec.with_all [] (spec.met_of (map entry_is entries.now)) }
    ensures few { length result.items ≤ 64 }
{
    let mut rows = Rows::new();
    offer_all(&mut rows, met_of(entries));
    rows
}

/// The indices that have a row.
pub(crate) fn rows_of(entries: &[Entry]) -> Rows
    ensures rows { result.items ≡ spec.rows_of (map entry_is entries.now) }
    ensures few { length result.items ≤ 64 }
{
    let those = those_met(entries);
    let mut rows = others(those.as_slice(), entries);
    offer_all(&mut rows, those.as_slice());
    rows
}

// Whether it has no row.
fn is_missing(rows: &[i64], processor: Option<i64>) -> bool
    ensures { result ≡ spec.is_missing rows.now processor }
{
    match processor {
        None => false,
        Some(index) => place_of(rows, index) == rows.len(),
    }
}

/// How many of those that act have no row.
pub(crate) fn missing(rows: &[i64], acts: &[Act]) -> usize
    ensures { result ≡ spec.missing rows.now (map act_is acts.now) }
{
    let mut count = 0;
    for act in acts {
        if is_missing(rows, act.processor) {
            count += 1;
        }
    }
    count
}
