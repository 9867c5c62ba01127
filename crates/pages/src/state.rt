//! What stands in shared memory and in the uniform variables behind a statement, and how much was printed.

ghost use Rattle.std.specs.Prelude.{◌≡◌, ◌<◌, ◌∷◌, [], ℤ, IfOk, OnOk, length, map, string_bytes, take};
ghost use Rattle.std.specs.List.{fold};
ghost use Rattle.serde_json.specs.View.{view};
ghost use Rattle.json_texts.specs.Lines.{IsJson};
ghost use Rattle.journal.specs.Entries.{entry_is};
ghost use Rattle.journal.specs.Replay as replay;
ghost use Rattle.pages.specs.State as spec;

use journal::{Change, Entry};
use json_texts::{Object, Value, line_of};
use std::alloc::{AllocError, Global};

// Puts zeros behind values, up to a number.
fn put_zeros(values: &mut Vec<i64>, at: usize) -> Result<(), AllocError>
    ensures reaches { OnOk result (at < length values.new.items) }
    ensures same { OnOk result ((v : ℤ) → replay.with_value values.new.items at v ≡ replay.with_value values.old.items at v) }
{
    while values.len() <= at {
        values.push(0)?;
    }
    Ok(())
}

// Puts a value at a number, with zeros up to there.
fn put_value(values: &mut Vec<i64>, at: usize, value: i64) -> Result<(), AllocError>
    ensures { OnOk result (values.new.items ≡ replay.with_value values.old.items at value) }
{
    put_zeros(values, at)?;
    values[at] = value;
    Ok(())
}

// Makes changes, one after another.
fn put_changes(values: &mut Vec<i64>, changes: &[Change]) -> Result<(), AllocError>
    ensures { OnOk result (values.new.items ≡ fold replay.with_change values.old.items changes.now) }
{
    for change in changes {
        put_value(values, change.cell, change.after)?;
    }
    Ok(())
}

// Makes those of cells in a statement.
fn put_cells(values: &mut Vec<i64>, entry: &Entry) -> Result<(), AllocError>
    ensures { OnOk result (values.new.items ≡ replay.with_cells values.old.items (entry_is entry.now)) }
{
    match entry {
        Entry::Ran { cells, .. } => put_changes(values, cells),
        Entry::Faulted { .. } => Ok(()),
    }
}

// Makes those of uniform variables in a statement.
fn put_variables(values: &mut Vec<i64>, entry: &Entry) -> Result<(), AllocError>
    ensures { OnOk result (values.new.items ≡ replay.with_variables values.old.items (entry_is entry.now)) }
{
    match entry {
        Entry::Ran { variables, .. } => put_changes(values, variables),
        Entry::Faulted { .. } => Ok(()),
    }
}

// Counts what a statement printed.
fn count_printed(count: &mut usize, entry: &Entry) -> Result<(), AllocError>
    ensures { OnOk result (count.new ≡ replay.with_printed count.old (entry_is entry.now)) }
{
    match entry {
        Entry::Ran { printed, .. } => {
            let Some(all) = count.checked_add(printed.len()) else {
                return Err(AllocError);
            };
            *count = all;
            Ok(())
        }
        Entry::Faulted { .. } => Ok(()),
    }
}

/// What cells and uniform variables hold at a moment of a run: the values of the first ones, of which all others are 0; and how many
/// numbers the run has printed.
#[derive(Drop)]
pub(crate) struct RunState {
    pub(crate) cells: Vec<i64>,
    pub(crate) variables: Vec<i64>,
    pub(crate) printed: usize,
}

impl RunState {
    /// Before the first statement, on this input. `AllocError`: memory was refused.
    pub(crate) fn before_all(alloc: Global, input: &[i64]) -> Result<RunState, AllocError>
        ensures cells { IfOk result (λ state. state.cells.items ≡ input.now) }
        ensures variables { IfOk result (λ state. state.variables.items ≡ []) }
        ensures printed { IfOk result (λ state. state.printed ≡ 0) }
    {
        let cells = Vec::from_slice(alloc, input)?;
        let variables = Vec::new(alloc);
        Ok(RunState {
            cells,
            variables,
            printed: 0,
        })
    }

    /// Behind one statement more. `AllocError`: memory was refused, and part of its changes may have been made; or more numbers were
    /// printed than can be counted, which no memory holds.
    pub(crate) fn go_on(&mut self, entry: &Entry) -> Result<(), AllocError>
        ensures cells { OnOk result (self.new.cells.items ≡ replay.with_cells self.old.cells.items (entry_is entry.now)) }
        ensures variables { OnOk result (self.new.variables.items ≡ replay.with_variables self.old.variables.items (entry_is entry.now)) }
        ensures printed { OnOk result (self.new.printed ≡ replay.with_printed self.old.printed (entry_is entry.now)) }
    {
        put_cells(&mut self.cells, entry)?;
        put_variables(&mut self.variables, entry)?;
        count_printed(&mut self.printed, entry)
    }

    /// Behind these statements more. `AllocError`: the same.
    pub(crate) fn go_on_all(&mut self, entries: &[Entry]) -> Result<(), AllocError>
        ensures cells { OnOk result (self.new.cells.items ≡ fold replay.with_cells self.old.cells.items (map entry_is entries.now)) }
        ensures variables { OnOk result
            (self.new.variables.items ≡ fold replay.with_variables self.old.variables.items (map entry_is entries.now)) }
        ensures printed { OnOk result (self.new.printed ≡ fold replay.with_printed self.old.printed (map entry_is entries.now)) }
    {
        for entry in entries {
            self.go_on(entry)?;
        }
        Ok(())
    }

    /// Behind so many of these, or all. `AllocError`: the same.
    pub(crate) fn go_on_to(&mut self, entries: &[Entry], most: usize) -> Result<(), AllocError>
        ensures cells { OnOk result
            (self.new.cells.items ≡ fold replay.with_cells self.old.cells.items (take most (map entry_is entries.now))) }
        ensures variables { OnOk result
            (self.new.variables.items ≡ fold replay.with_variables self.old.variables.items (take most (map entry_is entries.now))) }
        ensures printed { OnOk result
            (self.new.printed ≡ fold replay.with_printed self.old.printed (take most (map entry_is entries.now))) }
    {
        let (some, _) = entries.split_at(most.min(entries.len()));
        self.go_on_all(some)
    }
}

fn state_value(alloc: Global, state: &RunState, behind: usize) -> Result<Value, AllocError>
    ensures { IfOk result (λ v. view v ≡ spec.state_of state.now.cells.items state.now.variables.items state.now.printed behind) }
{
    let mut object = Object::new(alloc);
    object.put_count("state", behind as u64)?;
    object.put_values("cells", state.cells.as_slice())?;
    object.put_values("variables", state.variables.as_slice())?;
    object.put_count("printed", state.printed as u64)?;
    Ok(object.into_value())
}

/// What cells and uniform variables hold behind the statement of this number, on a line: the values of the first cells and variables, of
/// which all others are 0, and how many numbers were printed up to there. A page takes it where statements up to that one are left out.
/// `AllocError`: memory was refused.
pub(crate) fn state_line(
    alloc: Global,
    state: &RunState,
    behind: usize,
) -> Result<String, AllocError>
    // The line is exactly the facts of cells, uniform variables and number of printed items behind a statement, and
    // read as JSON it is them again.
    ensures json { IfOk result
        (λ line. IsJson (spec.state_of state.now.cells.items state.now.variables.items state.now.printed behind ∷ [])
        (string_bytes line)) }
{
    let facts = state_value(alloc, state, behind)?;
    line_of(alloc, &facts)
}
