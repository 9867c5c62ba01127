//! What the processors of a statement did at a cell.

ghost use Rattle.std.specs.Prelude.{◌≡◌, Some, map};
ghost use Rattle.std.specs.List.{position_or_len};
ghost use Rattle.journal.specs.Entries.{act_is};
ghost use Rattle.pictures.specs.Flows.Marks as spec;

use crate::flows::values::value_at;
use journal::Act;

fn is_written(write: Option<u32>, to: Option<u32>) -> bool
    ensures { result ≡ spec.is_written write to }
{
    match (write, to) {
        (Some(cell), Some(to)) => cell == to,
        (Some(_), None) => false,
        (None, Some(_)) => false,
        (None, None) => true,
    }
}

/// Whether a cell is among some.
pub(crate) fn has_read(reads: &[u32], cell: u32) -> bool
    ensures { result ≡ spec.has_read reads.now cell }
{
    for read in reads {
        if *read == cell {
            return true;
        }
    }
    false
}

/// Whether a processor wrote it.
pub(crate) fn writes(acts: &[Act], cell: u32) -> bool
    ensures { result ≡ spec.writes (map act_is acts.now) cell }
{
    for act in acts {
        if is_written(act.write, Some(cell)) {
            return true;
        }
    }
    false
}

fn is_carrier(act: &Act, from: u32, to: Option<u32>) -> bool
    ensures { result ≡ spec.carries_one (act_is act.now) from to }
{
    is_written(act.write, to) && has_read(&act.reads, from)
}

/// Whether a processor read the one and wrote the other, or wrote none.
pub(crate) fn carries(acts: &[Act], from: u32, to: Option<u32>) -> bool
    ensures { result ≡ spec.carries (map act_is acts.now) from to }
{
    for act in acts {
        if is_carrier(act, from, to) {
            return true;
        }
    }
    false
}

// Whether a read stands in a subscript, as far as that is known.
fn stands_aside(aside: &[bool], k: usize) -> bool
    ensures { result ≡ spec.stands_aside aside.now k }
{
    match aside.get(k) {
        Some(aside) => *aside,
        None => false,
    }
}

// Whether a cell is among reads by one that stands in no subscript.
fn is_valued(aside: &[bool], reads: &[u32], cell: u32) -> bool
    ensures { result ≡ spec.valued_from aside.now 0 reads.now cell }
{
    'reads: for k in 0..reads.len() {
        if reads[k] == cell && !stands_aside(aside, k) {
            return true;
        }
    }
    false
}

fn is_valuer(aside: &[bool], act: &Act, from: u32, to: Option<u32>) -> bool
    ensures { result ≡ spec.values_one aside.now (act_is act.now) from to }
{
    is_written(act.write, to) && is_valued(aside, &act.reads, from)
}

/// Whether a processor computed what it wrote there from the value of the other.
pub(crate) fn values(aside: &[bool], acts: &[Act], from: u32, to: Option<u32>) -> bool
    ensures { result ≡ spec.values aside.now (map act_is acts.now) from to }
{
    for act in acts {
        if is_valuer(aside, act, from, to) {
            return true;
        }
    }
    false
}

// The place of the first act that wrote a cell.
fn first_writer(acts: &[Act], cell: u32) -> usize
    ensures { result ≡ position_or_len (λ a. spec.is_written a.write (Some cell)) (map act_is acts.now) }
{
    let mut at = 0;
    while at < acts.len() && !is_written(acts[at].write, Some(cell)) {
        at += 1;
    }
    at
}

/// What is told of the first one that wrote a cell, by what is told of each.
pub(crate) fn value_in(acts: &[Act], written: &[i64], cell: u32) -> i64
    ensures { result ≡ spec.value_in (map act_is acts.now) written.now cell }
{
    value_at(written, first_writer(acts, cell))
}
