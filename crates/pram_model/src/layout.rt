//! Shared declarations and their cells.

ghost use Rattle.std.specs.Prelude.{◌≡◌, ℤ, ◌+◌, ◌≤◌, ◌<◌, ◌++◌, ◌∷◌, [], ◌+ℤ◌, ◌-ℤ◌, ◌≤ℤ◌, pos, ◌^◌, length, slice_get, nat_abs};
ghost use Rattle.std.specs.Prelude.{Some, None};
ghost use Rattle.std.specs.Prelude.{Option, IfOk, IfSome, OnOk, OnErr, MatchOption};
ghost use Rattle.pram_model.specs.Layout as spec;
ghost use Rattle.pram_model.specs.Layout.{cell_at, bounds_of, subscripts, IsSingle};

use sqlite_items::{Items, at};
use std::alloc::{AllocError, Global};
use std::marker::Model;

/// The cells of a declaration with their subscripts from `low` to `high`: the cell at `low` has the
/// number `first`, and those behind it the next ones. A single cell has the one subscript 0.
#[derive(Clone, Copy)]
pub struct Range {
    pub first: u32,
    pub low: i64,
    pub high: i64,
    ghost ordered: { low ≤ℤ high },
    ghost placed: { first + nat_abs (high -ℤ low) < 2 ^ 20 },
}

/// One shared declaration. A single cell has the one subscript 0.
#[derive(Drop)]
struct Entry {
    name: Items<u8>,
    is_array: bool,
    range: Range,
}

/// The shared declarations of a program in order. Their cells are numbered from 0 in the order of
/// declaration and, within an array, by ascending subscript; there are at most 1,048,576.
#[derive(Drop)]
pub struct Layout {
    entries: Vec<Entry>,
    cells: u32,
}

impl Entry {
    // The same declaration.
    fn copied(&self, alloc: Global) -> Result<Entry, AllocError>
        ensures { IfOk result (λ copy. copy ≡ self.now) }
    {
        Ok(Entry {
            name: Items::from_slice(alloc, self.name.as_slice())?,
            is_array: self.is_array,
            range: self.range,
        })
    }
}

impl Model for Layout {
    ghost use Rattle.std.specs.Prelude.{List, ◌≤◌};
    ghost use Rattle.pram_model.specs.Layout.{SharedEntry, most_cells};
    ghost use Rattle.pram_model.specs.LayoutFields.{declared, IsNumbered};

    ghost Value = { List SharedEntry };

    ghost view = { λ l. declared l.entries.items };

    ghost invariant = { λ l. IsNumbered 0 l.entries.items l.cells × (l.cells ≤ most_cells) };
}

impl Layout {
    /// No declarations yet.
    pub fn new(alloc: Global) -> Layout
        ensures { result ≡ [] }
    {
        Layout {
            entries: Vec::new(alloc),
            cells: 0,
        }
    }

    /// How many declarations there are.
    pub fn len(&self) -> usize
        ensures { result ≡ length self.now }
    {
        self.entries.len()
    }

    /// How many cells they have together.
    pub fn cells(&self) -> u32
        ensures total { result ≡ spec.total_size self.now }
        ensures most { result ≤ spec.most_cells }
    {
        self.cells
    }

    /// The name of a declaration.
    pub fn name(&self, i: usize) -> &[u8]
        requires { i < length self.now }
        ensures { IfSome (slice_get self.now i) (λ e. result.now ≡ e.name) }
    {
        self.entries[i].name.as_slice()
    }

    /// The bounds of an array's subscripts, and `None` for a single cell.
    pub fn bounds(&self, i: usize) -> Option<(i64, i64)>
        requires { i < length self.now }
        ensures { IfSome (slice_get self.now i) (λ e. result ≡ e.bounds) }
    {
        let entry = &self.entries[i];
        if entry.is_array {
            Some((entry.range.low, entry.range.high))
        } else {
            None
        }
    }

    /// How many cells a declaration has.
    pub fn size(&self, i: usize) -> u32
        requires { i < length self.now }
        ensures { IfSome (slice_get self.now i) (λ e. result ≡ spec.size e.bounds) }
    {
        let entry = &self.entries[i];
        if entry.is_array {
            cell_count(entry.range.low, entry.range.high)
        } else {
            1
        }
    }

    /// The subscript of an array's cell by the cell's number among those of the array, and 0 for a
    /// single cell.
    pub fn subscript(&self, i: usize, number: u32) -> i64
        requires entry { i < length self.now }
        requires inside { IfSome (slice_get self.now i) (λ e. number < spec.size e.bounds) }
        // The cell of that number among a declaration's cells, counted from 0, has the lower bound plus the number as
        // its subscript; a single cell has 0.
        ensures { IfSome (slice_get self.now i) (λ e. result ≡ (subscripts e.bounds).0 +ℤ pos number) }
    {
        let entry = &self.entries[i];
        if entry.is_array {
            subscript_at(entry.range.low, entry.range.high, number)
        } else {
            0
        }
    }

    /// The cells of a declaration, with their subscripts.
    pub fn range(&self, i: usize) -> Range
        requires { i < length self.now }
        // The range has the declaration's bounds; a single cell has the one subscript 0.
        ensures bounds { IfSome (slice_get self.now i)
            (λ e. (result.low ≡ (subscripts e.bounds).0) × (result.high ≡ (subscripts e.bounds).1)) }
        // The declaration's cell at any subscript is the range's first cell plus the subscript's distance from the
        // lower bound, and none outside the bounds.
        ensures cells { (z : ℤ) → spec.cell_of self.now i z ≡ cell_at result.first result.low result.high z }
    {
        self.entries[i].range
    }

    /// The same declarations.
    pub fn copied(&self, alloc: Global) -> Result<Layout, AllocError>
        // The copy is the same layout, if memory is not refused.
        ensures { IfOk result (λ copy. copy ≡ self.now) }
    {
        let mut entries = Vec::new(alloc);
        for entry in &self.entries {
            entries.push(entry.copied(alloc)?)?;
        }
        Ok(Layout {
            entries,
            cells: self.cells,
        })
    }

    /// Takes a single cell in, behind the other declarations.
    pub fn push_cell(&mut self, alloc: Global, name: &[u8]) -> Result<(), AllocError>
        requires { spec.total_size self.old + 1 ≤ spec.most_cells }
        // The single cell stands behind the declarations that were there.
        ensures ok { OnOk result (self.new ≡ self.old ++ record { name = name.now; bounds = None } ∷ []) }
        // Where memory is refused the layout stays as it was.
        ensures err { OnErr result (self.new ≡ self.old) }
    {
        self.push(alloc, name, false, 0, 0)
    }

    /// Takes an array in, behind the other declarations, with the bounds `low` and `high` of its
    /// subscripts.
    pub fn push_array(
        &mut self,
        alloc: Global,
        name: &[u8],
        low: i64,
        high: i64,
    ) -> Result<(), AllocError>
        requires ordered { low ≤ℤ high }
        requires room { spec.total_size self.old + spec.width low high ≤ spec.most_cells }
        // The array stands behind the declarations that were there, with its bounds.
        ensures ok { OnOk result (self.new ≡ self.old ++ record { name = name.now; bounds = Some (low, high) } ∷ []) }
        // Where memory is refused the layout stays as it was.
        ensures err { OnErr result (self.new ≡ self.old) }
    {
        self.push(alloc, name, true, low, high)
    }

    // A declaration that is an array, or a single cell with the subscript 0.
    fn push(
        &mut self,
        alloc: Global,
        name: &[u8],
        is_array: bool,
        low: i64,
        high: i64,
    ) -> Result<(), AllocError>
        requires ordered { low ≤ℤ high }
        requires single { IsSingle is_array low high }
        requires room { spec.total_size self.old + spec.width low high ≤ spec.most_cells }
        ensures ok { OnOk result (self.new ≡ self.old ++ record { name = name.now; bounds = bounds_of is_array low high } ∷ []) }
        ensures err { OnErr result (self.new ≡ self.old) }
    {
        let name = Items::from_slice(alloc, name)?;
        let first = self.cells;
        let more = cell_count(low, high);
        self.entries.push(Entry {
            name,
            is_array,
            range: Range { first, low, high },
        })?;
        self.cells = first + more;
        Ok(())
    }

    /// The number of the cell at a subscript of a declaration; a single cell has the subscript 0.
    pub fn cell(&self, entry: usize, subscript: i64) -> Option<u32>
        // The answer is the number of the declaration's cell at the subscript, with cells numbered on through all
        // declarations in order; none where there is no such cell.
        ensures { result ≡ spec.cell_of self.now entry subscript }
    {
        match at(self.entries.as_slice(), entry) {
            None => None,
            Some(entry) => entry.range.cell(subscript),
        }
    }
}

// How many cells the bounds give.
#[tactic(auto, using(crate::proofs::Layouts::width_is))]
fn cell_count(low: i64, high: i64) -> u32
    requires ordered { low ≤ℤ high }
    requires few { spec.width low high ≤ spec.most_cells }
    ensures { result ≡ spec.width low high }
{
    (high - low) as u32 + 1
}

// The subscript of a cell among those from `low` to `high`.
fn subscript_at(low: i64, high: i64, number: u32) -> i64
    requires ordered { low ≤ℤ high }
    requires inside { number ≤ nat_abs (high -ℤ low) }
    ensures { result ≡ low +ℤ pos number }
{
    low + number as i64
}

impl Range {
    // The number of the cell at a subscript.
    fn cell(self, subscript: i64) -> Option<u32>
        ensures { result ≡ cell_at self.first self.low self.high subscript }
    {
        if subscript < self.low || self.high < subscript {
            return None;
        }
        Some(self.first + (subscript - self.low) as u32)
    }
}
