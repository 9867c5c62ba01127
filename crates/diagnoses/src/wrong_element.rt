//! Where the element stands whose subscript is outside the bounds of its array.

ghost use Rattle.std.specs.Prelude.{◌≡◌, ◌<◌, IfOk, IfSome, length, map, slice_get};
ghost use Rattle.journal.specs.Causes.{known_cause};
ghost use Rattle.journal.specs.Entries.{act_is};
ghost use Rattle.diagnoses.specs.WrongElements as spec;

use element_places::elements_at;
use journal::{Act, Cause};
use pram_check::Program;
use pram_tokens::Location;
use pram_trees::Layout;
use pram_values::Place;
use std::alloc::{AllocError, Global};

// Whether a cell is one of those from the first to the last.
fn is_between(first: Option<u32>, last: Option<u32>, cell: u32) -> bool
    ensures { result ≡ spec.is_between first last cell }
{
    match (first, last) {
        (Some(first), Some(last)) => first <= cell && cell <= last,
        _ => false,
    }
}

// How many of some reads are of those cells.
fn count_between(first: Option<u32>, last: Option<u32>, reads: &[u32]) -> usize
    ensures { result ≡ spec.count_between first last reads.now }
{
    let mut count = 0;
    for cell in reads {
        if is_between(first, last, *cell) {
            count += 1;
        }
    }
    count
}

// How many are of a declaration's cells.
fn count_of(layout: &Layout, entry: usize, reads: &[u32]) -> usize
    requires entry { entry < length layout.now }
    ensures { IfSome (slice_get layout.now entry) (λ e. result ≡ spec.count_of layout.now entry e reads.now) }
{
    let range = layout.range(entry);
    let (first, last) = (
        layout.cell(entry, range.low),
        layout.cell(entry, range.high),
    );
    count_between(first, last, reads)
}

fn is_processor(act: &Act, index: i64) -> bool
    ensures { result ≡ spec.is_processor (act_is act.now) index }
{
    match act.processor {
        None => false,
        Some(processor) => processor == index,
    }
}

// What the processor of that index read.
fn reads_by(acts: &[Act], index: i64) -> &[u32]
    ensures { result.now ≡ spec.reads_by (map act_is acts.now) index }
{
    for act in acts {
        if is_processor(act, index) {
            return act.reads.as_slice();
        }
    }
    &[]
}

fn first_reads(acts: &[Act]) -> &[u32]
    ensures { result.now ≡ spec.first_reads (map act_is acts.now) }
{
    match acts.first() {
        None => &[],
        Some(act) => act.reads.as_slice(),
    }
}

// What the one read that failed there.
fn reads_at(acts: &[Act], place: Place) -> &[u32]
    ensures { result.now ≡ spec.reads_at (map act_is acts.now) place }
{
    match place {
        Place::All => first_reads(acts),
        Place::Processor(index) => reads_by(acts, index),
        Place::Cell(_) => &[],
    }
}

// Of the elements of that declaration in the statement the one behind those that were read.
fn element_behind(
    alloc: Global,
    program: &Program,
    at: u32,
    entry: usize,
    reads: &[u32],
) -> Result<Option<u32>, AllocError>
    ensures { IfOk result (λ found. found ≡ spec.element_behind program.now at entry reads.now (slice_get program.now.layout entry)) }
{
    let layout = program.layout();
    if entry >= layout.len() {
        return Ok(None);
    }
    let elements = elements_at(alloc, program.tree(), at, layout.name(entry))?;
    Ok(elements.get(count_of(layout, entry, reads)).copied())
}

/// The offset at which the element stands whose subscript is outside the bounds of its array, if a statement fails for that: the first of
/// that array's elements in the statement whose cell was not read.
pub(crate) fn wrong_element(
    alloc: Global,
    program: &Program,
    location: Location,
    acts: &[Act],
    place: Place,
    cause: &Option<Cause>,
) -> Result<Option<u32>, AllocError>
    ensures { IfOk result (λ found. found
        ≡ spec.wrong_element program.now location (map act_is acts.now) place (known_cause cause.now)) }
{
    match cause {
        Some(Cause::Beyond { entry, .. }) => {
            element_behind(
                alloc,
                program,
                location.offset,
                *entry,
                reads_at(acts, place),
            )
        }
        _ => Ok(None),
    }
}
