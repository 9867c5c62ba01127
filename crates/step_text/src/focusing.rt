//! What is left of an entry.

ghost use Rattle.std.specs.Prelude.{◌≡◌};
ghost use Rattle.std.specs.List.{filter};
ghost use Rattle.std.specs.Option.{option_map};
ghost use Rattle.journal.specs.Entries.{entry_is};
ghost use Rattle.step_text.specs.Focus as spec;

use crate::focus::Focus;
use crate::names::cell_name;
use help::{local_name, variable_name};
use journal::{Change, Entry, LocalChange};
use memory_texts::{Choice, is_chosen};

// Keeps the cells that bear one of the names.
fn keep_cells(focus: &Focus<'_>, cells: &mut Vec<Change>)
    ensures { cells.new.items ≡ filter (spec.is_cell focus.now) cells.old.items }
{
    cells.retain(|d| is_chosen(focus.names, cell_name(focus.layout, d.cell)));
}

// The variables that do.
fn keep_variables(focus: &Focus<'_>, variables: &mut Vec<Change>)
    ensures { variables.new.items ≡ filter (spec.is_variable focus.now) variables.old.items }
{
    variables.retain(|d| is_chosen(focus.names, variable_name(focus.tree, d.cell)));
}

// The locals that do, of a statement that stands at this offset of the program's text.
fn keep_locals(focus: &Focus<'_>, at: u32, locals: &mut Vec<LocalChange>)
    ensures { locals.new.items ≡ filter (spec.is_local focus.now at) locals.old.items }
{
    locals.retain(|d| is_chosen(focus.names, local_name(focus.tree, at, d.change.cell)));
}

// Leaves of an entry what bears one of the names.
fn narrow(focus: &Focus<'_>, entry: &mut Entry)
    ensures { entry_is entry.new ≡ spec.narrowed focus.now (entry_is entry.old) }
{
    match entry {
        Entry::Ran {
            location,
            cells,
            variables,
            locals,
            printed,
            ..
        } => {
            keep_cells(focus, cells);
            keep_variables(focus, variables);
            keep_locals(focus, location.offset, locals);
            printed.clear();
        }
        Entry::Faulted { locals, .. } => {
            if !focus.at_faults {
                locals.clear();
            }
        }
    }
}

// Whether a statement changed something, or faulted.
fn tells(entry: &Entry) -> bool
    ensures { result ≡ spec.tells (entry_is entry.now) }
{
    match entry {
        Entry::Ran {
            cells,
            variables,
            locals,
            ..
        } => !cells.is_empty() || !variables.is_empty() || !locals.is_empty(),
        Entry::Faulted { .. } => true,
    }
}

/// What is left of an entry where some of a program is looked at: where names are given, of a statement that ran the cells, the uniform
/// variables and the locals alone that bear one of them, and nothing that it printed; none, where it changed none of these. A fault is left
/// as it is, but for the locals if these are not looked at. No memory is taken.
pub(crate) fn focused(focus: &Focus<'_>, entry: Entry) -> Option<Entry>
    // Where names are given, just a statement's changes that bear one of them are left, and nothing where there are
    // none. A fault is always left.
    ensures { option_map entry_is result ≡ spec.focused focus.now (entry_is entry) }
{
    if matches!(focus.names, Choice::All) {
        return Some(entry);
    }
    let mut left = entry;
    narrow(focus, &mut left);
    if tells(&left) { Some(left) } else { None }
}
