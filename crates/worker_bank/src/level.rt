//! A set of processors, split by a mask.

ghost use Rattle.std.specs.Prelude.{◌≡◌, ◌≤◌, ◌<◌, ℕ, [], length, take, slice_index, true, false, not, IfOk, vec_capacity};
ghost use Rattle.std.specs.List.{filter, range_with_len};
ghost use Rattle.pram_values.specs.Truth.{is_nonzero};
ghost use Rattle.worker_bank.specs.Columns.{value_of};
ghost use Rattle.worker_bank.specs.Masks.{active_of, left_of, AreSplit, IsLevel};

use pram_values::is_true;
use std::alloc::{AllocError, Global};
use std::mem;

/// The processors that stay active under a mask, and those that it leaves out of the set below:
/// the first `kept` of `active`, and the first `dropped` of `left`, ascending. Both lists have room
/// from the beginning, and get as long as a mask asks for: memory that no mask reaches isn't touched.
#[derive(Drop)]
pub struct Level {
    pub active: Vec<u32>,
    pub kept: usize,
    pub left: Vec<u32>,
    pub dropped: usize,
}

// Those of a list whose value isn't 0 at the beginning of one output, the others at that of the
// other; and how many they are. Each is written to both: no branch goes by the values.
fn split(list: &[u32], column: &[i64], active: &mut [u32], left: &mut [u32]) -> (usize, usize)
    requires below { (k : ℕ) → k < length list.now → slice_index list.now k < length column.now }
    requires active { length list.now ≤ length active.old }
    requires left { length list.now ≤ length left.old }
    ensures active { take result.0 active.new ≡ filter (λ i. is_nonzero (value_of column.now i)) list.now }
    ensures left { take result.1 left.new ≡ filter (λ i. not (is_nonzero (value_of column.now i))) list.now }
    ensures kept { result.0 ≤ length list.now }
    ensures dropped { result.1 ≤ length list.now }
    ensures active_room { length active.new ≡ length active.old }
    ensures left_room { length left.new ≡ length left.old }
{
    split_on(list, column, active, left, 0, list.len(), (0, 0))
}

// So many processors of a row are looked at before one is written.
const BLOCK: usize = 64;

// The same for the places of a list from one up to another, behind those before them.
#[inline(always)]
fn split_on(
    list: &[u32],
    column: &[i64],
    active: &mut [u32],
    left: &mut [u32],
    from: usize,
    to: usize,
    counts: (usize, usize),
) -> (usize, usize)
    requires below { (k : ℕ) → k < length list.now → slice_index list.now k < length column.now }
    requires from { from ≤ to }
    requires to { to ≤ length list.now }
    requires active { length list.now ≤ length active.old }
    requires left { length list.now ≤ length left.old }
    requires split { AreSplit list.now column.now from active.old left.old counts }
    ensures split { AreSplit list.now column.now to active.new left.new result }
    ensures active_room { length active.new ≡ length active.old }
    ensures left_room { length left.new ≡ length left.old }
{
    let (mut kept, mut dropped) = counts;
    'places: for k in from..to {
        let i = list[k];
        let stays = is_true(column[i as usize]);
        active[kept] = i;
        left[dropped] = i;
        kept += usize::from(stays);
        dropped += usize::from(!stays);
    }
    (kept, dropped)
}

// Whether no processor of a row from one up to another stays.
#[inline(always)]
fn none_stays(column: &[i64], from: usize, to: usize) -> bool
    requires from { from ≤ to }
    requires to { to ≤ length column.now }
    ensures { result ≡ true → (j : ℕ) → from ≤ j → j < to → is_nonzero (value_of column.now j) ≡ false }
{
    let mut any = false;
    'row: for j in from..to {
        any |= is_true(column[j]);
    }
    !any
}

// The places of a list from one up to another at which none stays, behind those before them.
#[inline(always)]
fn drop_all(
    list: &[u32],
    column: &[i64],
    active: &[u32],
    left: &mut [u32],
    from: usize,
    to: usize,
    counts: (usize, usize),
) -> (usize, usize)
    requires from { from ≤ to }
    requires to { to ≤ length list.now }
    requires left { length list.now ≤ length left.old }
    requires none { (k : ℕ) → from ≤ k → k < to → is_nonzero (value_of column.now (slice_index list.now k)) ≡ false }
    requires split { AreSplit list.now column.now from active.now left.old counts }
    ensures split { AreSplit list.now column.now to active.now left.new result }
    ensures left_room { length left.new ≡ length left.old }
{
    let _active = active;
    let _column = column;
    let (kept, mut dropped) = counts;
    'places: for k in from..to {
        left[dropped] = list[k];
        dropped += 1;
    }
    (kept, dropped)
}

// What `split` does for the list of a row of processors, from the first one on: where none of a whole block stays it is copied.
fn split_row(list: &[u32], column: &[i64], active: &mut [u32], left: &mut [u32]) -> (usize, usize)
    requires row { (k : ℕ) → k < length list.now → slice_index list.now k ≡ k }
    requires below { (k : ℕ) → k < length list.now → slice_index list.now k < length column.now }
    requires active { length list.now ≤ length active.old }
    requires left { length list.now ≤ length left.old }
    ensures active { take result.0 active.new ≡ filter (λ i. is_nonzero (value_of column.now i)) list.now }
    ensures left { take result.1 left.new ≡ filter (λ i. not (is_nonzero (value_of column.now i))) list.now }
    ensures kept { result.0 ≤ length list.now }
    ensures dropped { result.1 ≤ length list.now }
    ensures active_room { length active.new ≡ length active.old }
    ensures left_room { length left.new ≡ length left.old }
{
    let mut counts = (0, 0);
    let mut from = 0;
    'blocks: while from < list.len() {
        let to = from + BLOCK.min(list.len() - from);
        counts = if none_stays(column, from, to) {
            drop_all(list, column, active, left, from, to, counts)
        } else {
            split_on(list, column, active, left, from, to, counts)
        };
        from = to;
    }
    counts
}

// Adds zeros until there are so many items.
fn lengthen(list: &mut Vec<u32>, count: usize)
    requires room { count ≤ vec_capacity list.old }
    ensures long { count ≤ length list.new.items }
    ensures room { vec_capacity list.new ≡ vec_capacity list.old }
{
    while list.len() < count {
        list.push_reserved(0);
    }
}

// The first numbers.
#[tactic(auto, using(crate::proofs::LevelLemmas::numbers_more))]
fn numbers(alloc: Global, count: u32) -> Result<Vec<u32>, AllocError>
    ensures items { IfOk result (λ all. all.items ≡ range_with_len 0 count) }
    ensures room { IfOk result (λ all. vec_capacity all ≡ count) }
{
    let mut all = Vec::with_capacity(alloc, count as usize)?;
    for j in 0..count {
        all.push_reserved(j);
    }
    Ok(all)
}

impl Level {
    /// An empty set, with room for so many: the first numbers stand there.
    pub fn everyone(alloc: Global, most: u32) -> Result<Level, AllocError>
        ensures room { IfOk result (λ level. IsLevel most level) }
        ensures all { IfOk result (λ level. level.active.items ≡ range_with_len 0 most) }
        ensures none { IfOk result (λ level. active_of level ≡ []) }
    {
        let active = numbers(alloc, most)?;
        let left = Vec::with_capacity(alloc, most as usize)?;
        Ok(Level {
            active,
            kept: 0,
            left,
            dropped: 0,
        })
    }

    /// An empty set, with room for so many.
    pub fn new(alloc: Global, most: u32) -> Result<Level, AllocError>
        ensures room { IfOk result (λ level. IsLevel most level) }
    {
        let active = Vec::with_capacity(alloc, most as usize)?;
        let left = Vec::with_capacity(alloc, most as usize)?;
        Ok(Level {
            active,
            kept: 0,
            left,
            dropped: 0,
        })
    }

    /// The processors that stay active.
    pub fn active(&self) -> &[u32]
        requires { self.now.kept ≤ length self.now.active.items }
        ensures { result.now ≡ active_of self.now }
    {
        &self.active[..self.kept]
    }

    /// The first so many of those that there is room for are the set.
    pub fn keep(&mut self, many: usize)
        ensures { self.new ≡ record self.old { kept = many } }
    {
        self.kept = many;
    }

    /// Splits a list: those stay active whose value isn't 0. It is said whether that is the list of a row, from the first processor on.
    pub fn split(&mut self, list: &[u32], column: &[i64], is_row: bool)
        requires active { length list.now ≤ vec_capacity self.old.active }
        requires left { length list.now ≤ vec_capacity self.old.left }
        requires below { (k : ℕ) → k < length list.now → slice_index list.now k < length column.now }
        requires row { is_row ≡ true → (k : ℕ) → k < length list.now → slice_index list.now k ≡ k }
        ensures active { active_of self.new ≡ filter (λ i. is_nonzero (value_of column.now i)) list.now }
        ensures left { left_of self.new ≡ filter (λ i. not (is_nonzero (value_of column.now i))) list.now }
        ensures room { (most : ℕ) → IsLevel most self.old → IsLevel most self.new }
    {
        lengthen(&mut self.active, list.len());
        lengthen(&mut self.left, list.len());
        let active = self.active.as_mut_slice();
        let left = self.left.as_mut_slice();
        let (kept, dropped) = if is_row {
            split_row(list, column, active, left)
        } else {
            split(list, column, active, left)
        };
        self.kept = kept;
        self.dropped = dropped;
    }

    /// Those that were left out are active in place of the others.
    pub fn turn(&mut self)
        ensures active { active_of self.new ≡ left_of self.old }
        ensures left { left_of self.new ≡ active_of self.old }
        ensures room { (most : ℕ) → IsLevel most self.old → IsLevel most self.new }
    {
        mem::swap(&mut self.active, &mut self.left);
        mem::swap(&mut self.kept, &mut self.dropped);
    }
}
