//! Which processors are active.

ghost use Rattle.std.specs.Prelude.{◌≡◌, ◌≤◌, ◌<◌, ◌+◌, ◌∷◌, [], ◌&&◌, ℕ, length, IfOk};
ghost use Rattle.std.specs.List.{AllByRecursion, range_with_len};
ghost use Rattle.pram_values.specs.Truth.{is_nonzero};
ghost use Rattle.superstep_machine.specs.Steps.{under, flipped, unmasked};
ghost use Rattle.worker_bank.specs.Columns.{value_of};
ghost use Rattle.worker_bank.specs.Sets.{those};
ghost use Rattle.worker_bank.specs.Masks.{all_at, set_at, masks_of, IsLevel, IsMasks};

use crate::level::Level;
use std::alloc::{AllocError, Global};
use std::mem;

/// The masks of a worker's processors: a level for each depth, the lowest of which has all of
/// them, and one more to write to.
#[derive(Drop)]
pub struct Masks {
    pub most: u32,
    pub many: usize,
    pub depth: usize,
    pub levels: Vec<Level>,
    pub spare: Level,
}

// The lowest level, which has all processors, and so many others.
fn levels(alloc: Global, most: u32, depth: usize) -> Result<Vec<Level>, AllocError>
    requires { depth ≤ 64 }
    ensures levels { IfOk result (λ all. AllByRecursion (IsLevel most) all.items) }
    ensures count { IfOk result (λ all. length all.items ≡ depth + 1) }
    ensures everyone { IfOk result (λ all. all_at all.items 0 ≡ range_with_len 0 most) }
    ensures none { IfOk result (λ all. set_at all.items 0 ≡ []) }
{
    let mut all = Vec::with_capacity(alloc, depth + 1)?;
    all.push(Level::everyone(alloc, most)?)?;
    for _ in 0..depth {
        all.push(Level::new(alloc, most)?)?;
    }
    Ok(all)
}

impl Masks {
    /// No processors yet, and room for so many, and for so many masks.
    pub fn new(alloc: Global, most: u32, depth: usize) -> Result<Masks, AllocError>
        requires { depth ≤ 64 }
        ensures masks { IfOk result (λ m. IsMasks m) }
        ensures most { IfOk result (λ m. m.most ≡ most) }
        ensures levels { IfOk result (λ m. length m.levels.items ≡ depth + 1) }
        // There are no processors yet, and no masks.
        ensures none { IfOk result (λ m. (m.many ≡ 0) × (m.depth ≡ 0)) }
    {
        let levels = levels(alloc, most, depth)?;
        let spare = Level::new(alloc, most)?;
        Ok(Masks {
            most,
            many: 0,
            depth: 0,
            levels,
            spare,
        })
    }

    /// So many processors, all of them active.
    pub fn open(&mut self, many: usize)
        requires masks { IsMasks self.old }
        requires room { many ≤ self.old.most }
        ensures masks { IsMasks self.new }
        // No processor is under a mask, so all are active.
        ensures each { (j : ℕ) → masks_of self.new j ≡ [] }
        ensures depth { self.new.depth ≡ 0 }
        ensures levels { length self.new.levels.items ≡ length self.old.levels.items }
        ensures many { self.new.many ≡ many }
        ensures most { self.new.most ≡ self.old.most }
    {
        self.many = many;
        self.depth = 0;
        self.levels[0].keep(many);
    }

    /// The active processors, ascending.
    pub fn active(&self) -> &[u32]
        requires { IsMasks self.now }
        // The list has just the processors that are active under their masks, ascending.
        ensures { result.now ≡ those (λ j. under (masks_of self.now j)) self.now.many }
    {
        self.levels[self.depth].active()
    }

    /// Of the active processors those stay active whose value isn't 0.
    pub fn mask(&mut self, column: &[i64])
        requires masks { IsMasks self.old }
        requires room { self.old.depth + 1 < length self.old.levels.items }
        requires column { self.old.many ≤ length column.now }
        ensures masks { IsMasks self.new }
        // Each processor is under one mask more, which lets it in where it was active and its value isn't 0.
        ensures each { (j : ℕ) → j < self.old.many → masks_of self.new j
            ≡ (under (masks_of self.old j) && is_nonzero (value_of column.now j)) ∷ masks_of self.old j }
        ensures depth { self.new.depth ≡ self.old.depth + 1 }
        ensures levels { length self.new.levels.items ≡ length self.old.levels.items }
        ensures many { self.new.many ≡ self.old.many }
        ensures most { self.new.most ≡ self.old.most }
    {
        self.spare
            .split(self.levels[self.depth].active(), column, self.depth == 0);
        self.depth += 1;
        mem::swap(&mut self.spare, &mut self.levels[self.depth]);
    }

    /// Of those that were active before the last mask, those are active that are not now.
    pub fn flip(&mut self)
        requires masks { IsMasks self.old }
        requires masked { 0 < self.old.depth }
        ensures masks { IsMasks self.new }
        // The last mask of each processor is turned, as the machine's definition turns it.
        ensures each { (j : ℕ) → j < self.old.many → masks_of self.new j ≡ flipped (masks_of self.old j) }
        ensures depth { self.new.depth ≡ self.old.depth }
        ensures levels { length self.new.levels.items ≡ length self.old.levels.items }
        ensures many { self.new.many ≡ self.old.many }
        ensures most { self.new.most ≡ self.old.most }
    {
        self.levels[self.depth].turn();
    }

    /// Takes the last mask off.
    pub fn unmask(&mut self)
        requires masks { IsMasks self.old }
        requires masked { 0 < self.old.depth }
        ensures masks { IsMasks self.new }
        // The last mask of each processor is taken off.
        ensures each { (j : ℕ) → masks_of self.new j ≡ unmasked (masks_of self.old j) }
        ensures depth { self.new.depth + 1 ≡ self.old.depth }
        ensures levels { length self.new.levels.items ≡ length self.old.levels.items }
        ensures many { self.new.many ≡ self.old.many }
        ensures most { self.new.most ≡ self.old.most }
    {
        self.depth -= 1;
    }
}
