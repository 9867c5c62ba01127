//! The difference of two stores.

ghost use Rattle.std.specs.Prelude.{◌≡◌, ◌++◌, IfOk, OnOk, pos, slice_index_or, slice_set};
ghost use Rattle.journal.specs.Changes.{change_at, difference};

use crate::Change;
use pram_meaning::view::number_at;
use std::alloc::{AllocError, Global};

// The change of a cell whose value differs, put behind the others.
fn add_change(
    changes: &mut Vec<Change>,
    cell: usize,
    before: i64,
    after: i64,
) -> Result<(), AllocError>
    ensures { OnOk result (changes.new.items ≡ changes.old.items ++ change_at cell before after) }
{
    if before != after {
        changes.push(Change {
            cell,
            before,
            after,
        })?;
    }
    Ok(())
}

// The change of one cell of two stores.
fn add_difference(
    changes: &mut Vec<Change>,
    cell: usize,
    before: &[i64],
    after: &[i64],
) -> Result<(), AllocError>
    ensures { OnOk result (changes.new.items ≡ changes.old.items
        ++ change_at cell (slice_index_or before.now cell (pos 0)) (slice_index_or after.now cell (pos 0))) }
{
    let old = number_at(before, cell);
    let new = number_at(after, cell);
    add_change(changes, cell, old, new)
}

/// The changes of the cells whose value differs, in ascending order.
#[tactic(auto, using(crate::proofs::Differing::all_start, crate::proofs::Differing::all_go, crate::proofs::Differing::all_end))]
pub fn changes_between(
    alloc: Global,
    before: &[i64],
    after: &[i64],
) -> Result<Vec<Change>, AllocError>
    ensures { IfOk result (λ ds. ds.items ≡ difference before.now after.now) }
{
    let count = before.len().min(after.len());
    let mut changes = Vec::new(alloc);
    for cell in 0..count {
        add_difference(&mut changes, cell, before, after)?;
    }
    Ok(changes)
}

/// The change of cells of which one gets a value.
#[tactic(auto, using(crate::proofs::Differing::one_inside, crate::proofs::Differing::one_outside))]
pub fn change_of(
    alloc: Global,
    cells: &[i64],
    cell: usize,
    value: i64,
) -> Result<Vec<Change>, AllocError>
    ensures { IfOk result (λ ds. ds.items ≡ difference cells.now (slice_set cells.now cell value)) }
{
    let mut changes = Vec::new(alloc);
    if cell < cells.len() {
        let old = number_at(cells, cell);
        add_change(&mut changes, cell, old, value)?;
    }
    Ok(changes)
}
