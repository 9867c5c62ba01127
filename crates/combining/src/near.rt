//! Values that came, taken in the order of the asks.

ghost use Rattle.std.specs.Prelude.{◌≡◌, ◌≤◌, ◌<◌, ◌+◌, ◌^◌, ℕ, length, get_or, slice_index_or, IfSome, Some, None, true, pos};
ghost use Rattle.combining.specs.Places.{place_of, AreApart};
ghost use Rattle.combining.specs.Columns.{AreBelow, HaveCome, HaveComeTo};
ghost use Rattle.combining.specs.Asked.{ask_key as key_for, value_by};

use crate::index::Index;
use crate::words::ask_key;

// So many processors are tried at once.
const RUN: usize = 128;

// The place of a key, if it is this one or the one before.
#[inline(always)]
fn place_near(keys: &[u32], likely: usize, key: u32) -> Option<usize>
    requires apart { AreApart keys.now }
    ensures place { IfSome result (λ i. i ≡ place_of key keys.now) }
    ensures within { IfSome result (λ i. i < length keys.now) }
{
    if likely < keys.len() && keys[likely] == key {
        return Some(likely);
    }
    if 0 < likely && likely <= keys.len() && keys[likely - 1] == key {
        return Some(likely - 1);
    }
    None
}

// The value that came for the ask at a place, and 0 where none did.
#[inline(always)]
fn value_of(came: &[i64], place: usize) -> i64
    ensures { result ≡ slice_index_or came.now place (pos 0) }
{
    if place < came.len() { came[place] } else { 0 }
}

// The value that came for the ask at a place where one did.
#[inline(always)]
fn value_here(came: &[i64], place: usize) -> i64
    requires { place < length came.now }
    ensures { result ≡ slice_index_or came.now place (pos 0) }
{
    came[place]
}

// Whether the ask at a place is for that cell.
#[inline(always)]
fn is_asked(keys: &[u32], place: usize, ordinal: u32, cell: Option<u32>) -> bool
    requires place { place < length keys.now }
    requires ordinal { ordinal < 8 }
    requires below { (c : ℕ) → cell ≡ Some c → c < 2 ^ 20 }
    ensures { result ≡ true → (c : ℕ) → cell ≡ Some c → get_or keys.now place 0 ≡ key_for ordinal c }
{
    match cell {
        Some(there) => keys[place] == ask_key(ordinal, there),
        None => false,
    }
}

// Whether the asks at so many places are for so many cells from one on, one by one.
#[inline(always)]
fn are_asked(
    keys: &[u32],
    likely: usize,
    ordinal: u32,
    cells: &[Option<u32>],
    from: usize,
    count: usize,
) -> bool
    requires ordinal { ordinal < 8 }
    requires below { AreBelow (2 ^ 20) cells.now }
    requires keys { likely + count ≤ length keys.now }
    requires cells { from + count ≤ length cells.now }
    ensures { result ≡ true → (k cell : ℕ) → k < count → slice_index_or cells.now (from + k) None ≡ Some cell →
        get_or keys.now (likely + k) 0 ≡ key_for ordinal cell }
{
    'cells: for k in 0..count {
        if !is_asked(keys, likely + k, ordinal, cells[from + k]) {
            return false;
        }
    }
    true
}

// Puts the values that came for a run of cells from one on at their places, where the asks for them stand one behind the other from the
// likely place on; else for none. All of the run is looked at first, so that its values are copied by a loop that does nothing else. Says
// up to where, and what is likely next.
#[inline(never)]
fn values_in_run(
    keys: &[u32],
    came: &[i64],
    likely: usize,
    ordinal: u32,
    cells: &[Option<u32>],
    from: usize,
    values: &mut [i64],
) -> (usize, usize)
    requires apart { AreApart keys.now }
    requires few { length came.now ≤ length keys.now }
    requires ordinal { ordinal < 8 }
    requires below { AreBelow (2 ^ 20) cells.now }
    requires from { from ≤ length cells.now }
    requires values { length cells.now ≤ length values.old }
    ensures each { HaveComeTo from (λ cell. value_by keys.now came.now ordinal cell) cells.now values.old →
        HaveComeTo result.0 (λ cell. value_by keys.now came.now ordinal cell) cells.now values.new }
    ensures on { from ≤ result.0 }
    ensures within { result.0 ≤ length cells.now }
    ensures count { length values.new ≡ length values.old }
{
    let count = RUN.min(cells.len() - from);
    if came.len() < likely || came.len() - likely < count {
        return (from, likely);
    }
    if !are_asked(keys, likely, ordinal, cells, from, count) {
        return (from, likely);
    }
    'run: for k in 0..count {
        values[from + k] = value_here(came, likely + k);
    }
    (from + count, likely + count)
}

// Puts the values that came for the cells from one up to another at their places, as long as each ask stands behind the last that was
// found, or is that one. Nothing is sought, so what the loop needs stays in registers. Says up to where, and what is likely next.
#[inline(never)]
fn values_in_order(
    keys: &[u32],
    came: &[i64],
    likely: usize,
    ordinal: u32,
    cells: &[Option<u32>],
    from: usize,
    to: usize,
    values: &mut [i64],
) -> (usize, usize)
    requires apart { AreApart keys.now }
    requires few { length came.now ≤ length keys.now }
    requires ordinal { ordinal < 8 }
    requires below { AreBelow (2 ^ 20) cells.now }
    requires from { from ≤ to }
    requires to { to ≤ length cells.now }
    requires values { length cells.now ≤ length values.old }
    ensures each { HaveComeTo from (λ cell. value_by keys.now came.now ordinal cell) cells.now values.old →
        HaveComeTo result.0 (λ cell. value_by keys.now came.now ordinal cell) cells.now values.new }
    ensures on { from ≤ result.0 }
    ensures within { result.0 ≤ to }
    ensures count { length values.new ≡ length values.old }
{
    let mut next = likely;
    'processors: for j in from..to {
        if let Some(cell) = cells[j] {
            let Some(place) = place_near(keys, next, ask_key(ordinal, cell)) else {
                return (j, next);
            };
            values[j] = value_of(came, place);
            next = place + 1;
        }
    }
    (to, next)
}

// Puts the value that came for one cell, if there is one, at its place; its ask is sought. Says what is likely next.
fn value_sought(
    index: &Index,
    came: &[i64],
    likely: usize,
    ordinal: u32,
    cells: &[Option<u32>],
    at: usize,
    values: &mut [i64],
) -> usize
    requires few { length came.now ≤ length index.now.keys }
    requires ordinal { ordinal < 8 }
    requires below { AreBelow (2 ^ 20) cells.now }
    requires at { at < length cells.now }
    requires values { length cells.now ≤ length values.old }
    ensures each { HaveComeTo at (λ cell. value_by index.now.keys came.now ordinal cell) cells.now values.old →
        HaveComeTo (at + 1) (λ cell. value_by index.now.keys came.now ordinal cell) cells.now values.new }
    ensures count { length values.new ≡ length values.old }
{
    let Some(cell) = cells[at] else {
        return likely;
    };
    let place = index.find(ask_key(ordinal, cell));
    values[at] = value_of(came, place);
    if place < came.len() {
        place + 1
    } else {
        likely
    }
}

// Puts the values that came for some of the cells from one on at their places, one by one. Says up to where, and what is likely next.
fn values_singly(
    index: &Index,
    keys: &[u32],
    came: &[i64],
    likely: usize,
    ordinal: u32,
    cells: &[Option<u32>],
    from: usize,
    values: &mut [i64],
) -> (usize, usize)
    requires keys { keys.now ≡ index.now.keys }
    requires apart { AreApart keys.now }
    requires few { length came.now ≤ length keys.now }
    requires ordinal { ordinal < 8 }
    requires below { AreBelow (2 ^ 20) cells.now }
    requires from { from < length cells.now }
    requires values { length cells.now ≤ length values.old }
    ensures each { HaveComeTo from (λ cell. value_by keys.now came.now ordinal cell) cells.now values.old →
        HaveComeTo result.0 (λ cell. value_by keys.now came.now ordinal cell) cells.now values.new }
    ensures on { from < result.0 }
    ensures within { result.0 ≤ length cells.now }
    ensures count { length values.new ≡ length values.old }
{
    let to = from + RUN.min(cells.len() - from);
    let (stop, place) = values_in_order(keys, came, likely, ordinal, cells, from, to, values);
    if stop == to {
        return (stop, place);
    }
    let next = value_sought(index, came, place, ordinal, cells, stop, values);
    (stop + 1, next)
}

/// Puts the values that came for some cells at their places. The keys are those of the index, and each ask is sought at the place behind
/// the last that was found first. Says what is likely next.
pub(crate) fn values_near(
    index: &Index,
    keys: &[u32],
    came: &[i64],
    likely: usize,
    ordinal: u32,
    cells: &[Option<u32>],
    values: &mut [i64],
) -> usize
    requires keys { keys.now ≡ index.now.keys }
    requires apart { AreApart keys.now }
    requires few { length came.now ≤ length keys.now }
    requires ordinal { ordinal < 8 }
    requires below { AreBelow (2 ^ 20) cells.now }
    requires values { length cells.now ≤ length values.old }
    ensures each { HaveCome (λ cell. value_by keys.now came.now ordinal cell) cells.now values.new }
    ensures count { length values.new ≡ length values.old }
{
    let mut next = likely;
    let mut j = 0;
    'processors: while j < cells.len() {
        let (stop, place) = values_in_run(keys, came, next, ordinal, cells, j, values);
        if j < stop {
            j = stop;
            next = place;
        } else {
            let (stop, place) = values_singly(index, keys, came, next, ordinal, cells, j, values);
            j = stop;
            next = place;
        }
    }
    next
}
