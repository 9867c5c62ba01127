//! The cells that statements touch.

ghost use Rattle.std.specs.Prelude.{◌≡◌, map};
ghost use Rattle.std.specs.List.{flat_map, fold};
ghost use Rattle.journal.specs.Entries.{act_is, entry_is};
ghost use Rattle.pictures.specs.Flows.Cells as spec;
ghost use Rattle.pictures.specs.Flows.Drawing.{column_is, entries_of};

use crate::acts::acts_in;
use crate::flows::column::Column;
use crate::flows::spans::{CellSpan, is_chosen};
use journal::{Act, Entry};
use pram_values::Place;

// The lesser of two, without one that is less than where the search begins.
fn nearer(start: u64, best: Option<u32>, cell: u32) -> Option<u32>
    ensures { result ≡ spec.nearer start best cell }
{
    match best {
        None => {
            if u64::from(cell) < start {
                None
            } else {
                Some(cell)
            }
        }
        Some(other) => {
            if u64::from(cell) < start {
                Some(other)
            } else {
                Some(other.min(cell))
            }
        }
    }
}

// The same where a cell is chosen.
fn nearer_if(only: &[CellSpan], start: u64, best: Option<u32>, cell: u32) -> Option<u32>
    ensures { result ≡ spec.nearer_if only.now start best cell }
{
    if is_chosen(only, cell) {
        nearer(start, best, cell)
    } else {
        best
    }
}

#[tactic(auto, using(crate::proofs::OfFlows::Least::reads_taken))]
fn with_reads(only: &[CellSpan], start: u64, best: Option<u32>, reads: &[u32]) -> Option<u32>
    ensures { result ≡ fold (spec.nearer_if only.now start) best reads.now }
{
    let mut least = best;
    for cell in reads {
        least = nearer_if(only, start, least, *cell);
    }
    least
}

fn with_optional(only: &[CellSpan], start: u64, best: Option<u32>, cell: Option<u32>) -> Option<u32>
    ensures { result ≡ fold (spec.nearer_if only.now start) best (spec.optional cell) }
{
    match cell {
        None => best,
        Some(cell) => nearer_if(only, start, best, cell),
    }
}

#[tactic(auto, using(crate::proofs::OfFlows::Least::act_is_taken))]
fn with_act(only: &[CellSpan], start: u64, best: Option<u32>, act: &Act) -> Option<u32>
    ensures { result ≡ fold (spec.nearer_if only.now start) best (spec.act_cells (act_is act.now)) }
{
    with_optional(
        only,
        start,
        with_reads(only, start, best, &act.reads),
        act.write,
    )
}

#[tactic(auto, using(crate::proofs::OfFlows::Least::acts_taken))]
fn with_acts(only: &[CellSpan], start: u64, best: Option<u32>, acts: &[Act]) -> Option<u32>
    ensures { result ≡ fold (spec.nearer_if only.now start) best (flat_map spec.act_cells (map act_is acts.now)) }
{
    let mut least = best;
    for act in acts {
        least = with_act(only, start, least, act);
    }
    least
}

fn with_place(only: &[CellSpan], start: u64, best: Option<u32>, place: Place) -> Option<u32>
    ensures { result ≡ fold (spec.nearer_if only.now start) best (spec.place_cells place) }
{
    match place {
        Place::All => best,
        Place::Processor(_) => best,
        Place::Cell(cell) => nearer_if(only, start, best, cell),
    }
}

// The cell at which it faulted, if it did at one.
fn with_fault(only: &[CellSpan], start: u64, best: Option<u32>, entry: &Entry) -> Option<u32>
    ensures { result ≡ fold (spec.nearer_if only.now start) best (spec.fault_cells (entry_is entry.now)) }
{
    match entry {
        Entry::Ran { .. } => best,
        Entry::Faulted { fault, .. } => with_place(only, start, best, fault.place),
    }
}

#[tactic(auto, using(crate::proofs::OfFlows::Least::entry_is_taken))]
fn with_entry(only: &[CellSpan], start: u64, best: Option<u32>, entry: &Entry) -> Option<u32>
    ensures { result ≡ fold (spec.nearer_if only.now start) best (spec.entry_cells (entry_is entry.now)) }
{
    with_fault(
        only,
        start,
        with_acts(only, start, best, acts_in(entry)),
        entry,
    )
}

/// The cell at which one of some statements faulted.
#[tactic(auto, using(crate::proofs::OfFlows::FaultRow::faults_taken))]
pub(crate) fn fault_cell(only: &[CellSpan], columns: &[Column]) -> Option<u32>
    ensures { result ≡ spec.fault_cell only.now (entries_of (map column_is columns.now)) }
{
    let mut cell = None;
    for column in columns {
        cell = with_fault(only, 0, cell, &column.entry);
    }
    cell
}

/// The least cell that some statements touch, from one on.
#[tactic(auto, using(crate::proofs::OfFlows::Least::entries_taken))]
pub(crate) fn least_from(only: &[CellSpan], start: u64, columns: &[Column]) -> Option<u32>
    ensures { result ≡ spec.least_from start (spec.touched only.now (entries_of (map column_is columns.now))) }
{
    let mut least = None;
    for column in columns {
        least = with_entry(only, start, least, &column.entry);
    }
    least
}
