//! The first bytes of the lines of a run's entries.

ghost use Rattle.std.specs.Prelude.{◌≡◌, ◌∷◌, ◌++◌, [], IfOk, OnOk, List, ℕ, string_bytes, take};
ghost use Rattle.serde_json.specs.Data.{Data};
ghost use Rattle.json_texts.specs.Lines.{IsJson, json_line};
ghost use Rattle.json_texts.specs.StepFacts.{step_facts};
ghost use Rattle.journal.specs.Entries.{entry_is};
ghost use Rattle.pages.specs.Cut.{room};
ghost use Rattle.pages.specs.Gathered.{AreFirstLines};

use crate::asked::Asked;
use crate::cut::ROOM;
use crate::lines::push_first;
use crate::numbers::see_numbers;
use journal::Entry;
use json_texts::json_step;
use std::alloc::{AllocError, Global};

/// The first bytes of the lines of entries, as many as a page has room for, and how many lines there are.
#[derive(Drop)]
pub(crate) struct FirstLines {
    pub(crate) bytes: Vec<u8>,
    pub(crate) count: usize,
}

/// The line of an entry.
pub(crate) fn step_line(
    alloc: Global,
    asked: Asked<'_>,
    number: usize,
    entry: &Entry,
) -> Result<String, AllocError>
    ensures json { IfOk result (λ line. IsJson
        (step_facts asked.entry.layout.now asked.entry.tree.now asked.entry.source.now number (entry_is entry.now) ∷ [])
        (string_bytes line)) }
{
    json_step(alloc, asked.layout, asked.tree, asked.source, number, entry)
}

impl FirstLines {
    /// No lines.
    pub(crate) fn new(alloc: Global) -> FirstLines
        ensures { AreFirstLines [] result }
    {
        FirstLines {
            bytes: Vec::new(alloc),
            count: 0,
        }
    }

    // Puts the line of an entry behind the others, as far as there is room: where there is none it isn't made.
    fn put(
        &mut self,
        alloc: Global,
        asked: Asked<'_>,
        number: usize,
        entry: &Entry,
    ) -> Result<(), AllocError>
        ensures bytes { OnOk result ((text : List ℕ) → self.old.bytes.items ≡ take room text → self.new.bytes.items ≡ take room (text ++
            json_line (step_facts asked.entry.layout.now asked.entry.tree.now asked.entry.source.now number (entry_is entry.now)))) }
        ensures count { self.new.count ≡ self.old.count }
    {
        if ROOM <= self.bytes.len() {
            return Ok(());
        }
        let line = step_line(alloc, asked, number, entry)?;
        push_first(&mut self.bytes, line.as_bytes())
    }

    /// One line more, that of an entry. `AllocError`: memory was refused, or there are more lines or columns than can be counted.
    pub(crate) fn add(
        &mut self,
        alloc: Global,
        asked: Asked<'_>,
        number: usize,
        entry: &Entry,
    ) -> Result<(), AllocError>
        ensures { OnOk result ((facts : List Data) → AreFirstLines facts self.old → AreFirstLines
            (facts ++ step_facts asked.entry.layout.now asked.entry.tree.now asked.entry.source.now number (entry_is entry.now) ∷ [])
            self.new) }
    {
        let Some(count) = self.count.checked_add(1) else {
            return Err(AllocError);
        };
        let Some(_columns) = asked.source.len().checked_add(1) else {
            return Err(AllocError);
        };
        see_numbers(entry);
        self.put(alloc, asked, number, entry)?;
        self.count = count;
        Ok(())
    }
}
