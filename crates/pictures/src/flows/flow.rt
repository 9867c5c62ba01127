//! What a picture takes of the entries of a run, as they come.

ghost use Rattle.std.specs.Prelude.{◌≡◌, ◌+◌, ◌++◌, ◌∷◌, [], ℕ, ℤ, Bool, true, false, List, IfOk, OnOk, if◌then◌else◌, nat_eq, map};
ghost use Rattle.pram_model.specs.Layout.{SharedEntry};
ghost use Rattle.journal.specs.Entries as entries;
ghost use Rattle.pictures.specs.declared.flows.spans.CellSpan.{CellSpan};
ghost use Rattle.pictures.specs.Acts.{acts_in};
ghost use Rattle.pictures.specs.Flows.Choice.{is_touching};
ghost use Rattle.pictures.specs.Flows.Drawing.{column_is, drawing_is, written_by};
ghost use Rattle.pictures.specs.Flows.Picture.{flow, picture};
ghost use Rattle.pictures.specs.Flows.Taken.{HasTaken, is_kept, with_faulted, with_ran};
ghost use Rattle.pictures.specs.Flows.Values.{value_at};

use crate::flows::choice::{MOST_COLUMNS, is_touching};
use crate::flows::column::{Column, push_column};
use crate::flows::drawing::Drawing;
use crate::flows::entries::is_fault;
use crate::flows::values::put_changes;
use journal::Entry;
use std::alloc::{AllocError, Global};

// Keeps the values before a statement that touches shared memory, if it is the first one.
fn keep_before(
    alloc: Global,
    before: &mut Vec<i64>,
    values: &[i64],
    touching: usize,
) -> Result<(), AllocError>
    ensures { OnOk result (before.new.items ≡ (if nat_eq touching 0 then values.now else before.old.items)) }
{
    if touching == 0 {
        *before = Vec::from_slice(alloc, values)?;
    }
    Ok(())
}

// Keeps the column of a statement that touches shared memory, where it has room.
fn keep_column(
    alloc: Global,
    ran: &mut Vec<Column>,
    faulted: &mut Vec<Column>,
    values: &[i64],
    number: usize,
    entry: Entry,
    aside: Vec<bool>,
) -> Result<(), AllocError>
    ensures ran { OnOk result (map column_is ran.new.items ≡ with_ran (map column_is ran.old.items) record {
      number = number;
      entry = entries.entry_is entry;
      aside = aside.items;
      written = written_by (value_at values.now) (acts_in (entries.entry_is entry));
    }) }
    ensures faulted { OnOk result (map column_is faulted.new.items ≡ with_faulted (map column_is faulted.old.items) record {
      number = number;
      entry = entries.entry_is entry;
      aside = aside.items;
      written = written_by (value_at values.now) (acts_in (entries.entry_is entry));
    }) }
{
    if is_fault(&entry) {
        push_column(alloc, faulted, values, number, entry, aside)
    } else if ran.len() < MOST_COLUMNS {
        push_column(alloc, ran, values, number, entry, aside)
    } else {
        Ok(())
    }
}

/// What a picture takes of the entries of a run, from one number to another, as they come: the values of the cells, and of the statements
/// that touch shared memory the first 64 and the one that faulted. Of the others none is kept.
#[derive(Drop)]
pub struct Flow {
    pub(crate) from: usize,
    pub(crate) to: usize,
    pub(crate) count: usize,
    pub(crate) touching: usize,
    pub(crate) cells: Vec<i64>,
    pub(crate) before: Vec<i64>,
    pub(crate) ran: Vec<Column>,
    pub(crate) faulted: Vec<Column>,
}

impl Flow {
    /// Before the first entry, where the first cells have these values and the others 0; of the statements whose numbers, counted from 1,
    /// go from one to another. `AllocError`: memory was refused.
    pub fn new(alloc: Global, from: usize, to: usize, opening: &[i64]) -> Result<Flow, AllocError>
        ensures begins { IfOk result (λ f. (asides : entries.Entry → List Bool) → HasTaken asides opening.now from to [] f) }
    {
        let cells = Vec::from_slice(alloc, opening)?;
        Ok(Flow {
            from,
            to,
            count: 0,
            touching: 0,
            cells,
            before: Vec::new(alloc),
            ran: Vec::new(alloc),
            faulted: Vec::new(alloc),
        })
    }

    /// Whether the next entry is kept, if it is this one.
    #[tactic(auto, using(crate::proofs::OfFlows::Taken::none_is_kept))]
    pub fn keeps(&self, entry: &Entry) -> bool
        ensures { result ≡ is_kept self.now (entries.entry_is entry.now) }
    {
        if self.count >= self.to {
            return false;
        }
        is_touching(self.from, self.to, self.count + 1, entry)
            && (is_fault(entry) || self.ran.len() < MOST_COLUMNS)
    }

    // An entry of which no column is drawn.
    fn pass(&mut self, number: usize, entry: &Entry) -> Result<(), AllocError>
        requires next { number ≡ self.old.count + 1 }
        requires untouched { is_touching self.old.from self.old.to (number, entries.entry_is entry.now) ≡ false }
        ensures taken { OnOk result ((asides : entries.Entry → List Bool) (opening : List ℤ) (from to : ℕ) (es : List entries.Entry) →
            HasTaken asides opening from to es self.old →
            HasTaken asides opening from to (es ++ entries.entry_is entry.now ∷ []) self.new) }
    {
        put_changes(&mut self.cells, entry)?;
        self.count = number;
        Ok(())
    }

    // One that touches shared memory.
    fn touch(
        &mut self,
        alloc: Global,
        number: usize,
        entry: Entry,
        aside: Vec<bool>,
    ) -> Result<(), AllocError>
        requires next { number ≡ self.old.count + 1 }
        requires touching { is_touching self.old.from self.old.to (number, entries.entry_is entry) ≡ true }
        ensures taken { OnOk result ((asides : entries.Entry → List Bool) (opening : List ℤ) (from to : ℕ) (es : List entries.Entry) →
            (is_kept self.old (entries.entry_is entry) ≡ true → aside.items ≡ asides (entries.entry_is entry)) →
            HasTaken asides opening from to es self.old →
            HasTaken asides opening from to (es ++ entries.entry_is entry ∷ []) self.new) }
    {
        let Some(touching) = self.touching.checked_add(1) else {
            return Err(AllocError);
        };
        keep_before(alloc, &mut self.before, &self.cells, self.touching)?;
        put_changes(&mut self.cells, &entry)?;
        keep_column(
            alloc,
            &mut self.ran,
            &mut self.faulted,
            &self.cells,
            number,
            entry,
            aside,
        )?;
        self.touching = touching;
        self.count = number;
        Ok(())
    }

    /// Takes the next entry; where it is kept (`keeps`), with which of a processor's reads stand in a subscript, in the order of
    /// evaluation. `AllocError`: memory was refused, or there are more entries than can be counted; part of it may have been taken then.
    pub fn add(&mut self, alloc: Global, entry: Entry, aside: Vec<bool>) -> Result<(), AllocError>
        ensures taken { OnOk result ((asides : entries.Entry → List Bool) (opening : List ℤ) (from to : ℕ) (es : List entries.Entry) →
            (is_kept self.old (entries.entry_is entry) ≡ true → aside.items ≡ asides (entries.entry_is entry)) →
            HasTaken asides opening from to es self.old →
            HasTaken asides opening from to (es ++ entries.entry_is entry ∷ []) self.new) }
    {
        let Some(number) = self.count.checked_add(1) else {
            return Err(AllocError);
        };
        if is_touching(self.from, self.to, number, &entry) {
            self.touch(alloc, number, entry, aside)
        } else {
            self.pass(number, &entry)
        }
    }

    /// What is drawn of all entries that came. `AllocError`: memory was refused.
    pub fn finish(self) -> Result<Drawing, AllocError>
        // The picture of the drawing is the defined one of all entries that came.
        ensures drawn { IfOk result (λ d. (asides : entries.Entry → List Bool) (opening : List ℤ) (from to : ℕ) (es : List entries.Entry) →
            HasTaken asides opening from to es self →
            (layout : List SharedEntry) (text : List ℕ) (only : List CellSpan) →
            picture layout text only (drawing_is d) ≡ flow layout text asides opening es only from to) }
    {
        let (from, to) = (self.from, self.to);
        let (count, touching, before) = (self.count, self.touching, self.before);
        let (mut columns, mut faulted) = (self.ran, self.faulted);
        columns.truncate(MOST_COLUMNS.saturating_sub(faulted.len()));
        columns.append(&mut faulted)?;
        Ok(Drawing {
            from,
            to,
            count,
            touching,
            before,
            columns,
        })
    }
}
