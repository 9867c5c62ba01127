//! The values of the cells of one module.

ghost use Rattle.std.specs.Prelude.{◌≡◌, ◌<◌, length, IfOk, replicate, pos, set};
ghost use Rattle.combining.specs.Gathering.{value_at};

use crate::slots::Slots;
use std::alloc::{AllocError, Global};
use std::marker::Model;

/// The values of one module's cells, by offset, and places for what comes for them.
#[derive(Drop)]
pub struct Cells {
    pub(crate) values: Vec<i64>,
    pub(crate) entries: Slots,
    pub(crate) askers: Vec<Option<bool>>,
}

impl Model for Cells {
    ghost use Rattle.std.specs.Prelude.{◌≡◌, List, ℤ, ℕ, length, None};
    ghost use Rattle.combining.specs.Gathering.{slot};

    ghost Value = { List ℤ };

    ghost view = { λ x. x.values.items };

    // Between two calls nothing is collected.
    ghost invariant = { λ x. (length x.entries ≡ length x.values.items) × (length x.askers.items ≡ length x.values.items)
        × ((o : ℕ) → slot x.entries o ≡ None) × ((o : ℕ) → slot x.askers.items o ≡ None) };
}

impl Cells {
    /// So many cells, all 0.
    pub fn new(alloc: Global, size: u32) -> Result<Cells, AllocError>
        ensures ok { IfOk result (λ x. x ≡ replicate size (pos 0)) }
    {
        let values = vec![in alloc; 0; size as usize]?;
        let entries = Slots::empty(alloc, size as usize)?;
        let askers = vec![in alloc; None; size as usize]?;
        Ok(Cells {
            values,
            entries,
            askers,
        })
    }

    /// The value at an offset.
    #[inline(always)]
    pub fn get(&self, offset: u32) -> i64
        requires { offset < length self.now }
        ensures value { result ≡ value_at self.now offset }
    {
        self.values[offset as usize]
    }

    /// Writes the value at an offset.
    pub fn set(&mut self, offset: u32, value: i64)
        requires { offset < length self.old }
        ensures value { self.new ≡ set self.old offset value }
    {
        self.values[offset as usize] = value;
    }
}
