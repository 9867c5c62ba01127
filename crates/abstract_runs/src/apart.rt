//! Whether no cell is reached twice.

ghost use Rattle.std.specs.Prelude.{◌≡◌, ℕ, ◌≤◌, ◌<◌, ◌↔◌, ◌⊎◌, true, false, IfOk, slice_index_or};
ghost use Rattle.abstract_runs.specs.Covers.{IsReached};
ghost use Rattle.abstract_runs.specs.Apart.{AreApart};

use crate::reach::Reach;
use std::alloc::{AllocError, Global};

// Whether each reaches cells behind those of all that come before it.
fn ascend(reaches: &[Option<Reach>]) -> bool
    ensures { result ≡ true → AreApart reaches.now }
{
    let mut next: u64 = 0;
    for k in 0..reaches.len() {
        let Some(reach) = reaches[k] else {
            continue;
        };
        if u64::from(reach.least) < next || reach.most < reach.least {
            return false;
        }
        next = u64::from(reach.most) + 1;
    }
    true
}

// Marks all cells of a reach, if none of them is marked and there is a mark for each.
fn mark(marks: &mut Vec<bool>, reach: Reach) -> bool
    ensures fresh { result ≡ true → (c : ℕ) → IsReached c reach → slice_index_or marks.old.items c false ≡ false }
    ensures kept { (c : ℕ) → slice_index_or marks.old.items c false ≡ true → slice_index_or marks.new.items c false ≡ true }
    ensures marked { result ≡ true → (c : ℕ) → IsReached c reach → slice_index_or marks.new.items c false ≡ true }
{
    for c in reach.least as usize..reach.most as usize + 1 {
        if c >= marks.len() {
            return false;
        }
        if marks[c] {
            return false;
        }
        marks[c] = true;
    }
    true
}

// Whether no cell is reached twice, by a mark for each.
fn are_marked_once(
    alloc: Global,
    cells: usize,
    reaches: &[Option<Reach>],
) -> Result<bool, AllocError>
    ensures { IfOk result (λ apart. apart ≡ true → AreApart reaches.now) }
{
    let mut marks = vec![in alloc; false; cells]?;
    for k in 0..reaches.len() {
        let Some(reach) = reaches[k] else {
            continue;
        };
        if !mark(&mut marks, reach) {
            return Ok(false);
        }
    }
    Ok(true)
}

/// Whether no two of these can reach one of so many cells: `true` says so, and `false` says nothing.
pub fn are_apart(alloc: Global, cells: usize, reaches: &[Option<Reach>]) -> Result<bool, AllocError>
    // Where it says so each cell is reached by one of them at most.
    ensures { IfOk result (λ apart. apart ≡ true → AreApart reaches.now) }
{
    if ascend(reaches) {
        return Ok(true);
    }
    are_marked_once(alloc, cells, reaches)
}
