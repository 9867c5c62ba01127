//! What a statement outside pardo changes and prints.

ghost use Rattle.std.specs.Prelude.{◌≡◌, ◌++◌, ◌∷◌, [], IfOk, OnOk, Some, drop, length, slice_set};
ghost use Rattle.pram_meaning.specs.Listening.{action_is, done_by};
ghost use Rattle.pram_meaning.specs.Runs.{effect_is, state_of};
ghost use Rattle.pram_meaning.specs.Together.{after_write};
ghost use Rattle.journal.specs.Acts.{held, holds};
ghost use Rattle.journal.specs.Changes.{difference};

use crate::Change;
use crate::differences::change_of;
use pram_check::Target;
use pram_meaning::action::Action;
use pram_meaning::attempt::Effect;
use pram_meaning::run::Run;
use pram_meaning::view::number_at;
use std::alloc::{AllocError, Global};

// The cell that an effect writes.
#[tactic(auto, using(crate::proofs::Differing::none_of_it))]
fn cell_written(alloc: Global, run: &Run, effect: &Effect) -> Result<Vec<Change>, AllocError>
    ensures { IfOk result (λ ds. ds.items ≡ difference run.now.cells.items
        (after_write effect.now.cell effect.now.value (state_of run.now)).cells) }
{
    match effect.cell {
        Some(cell) => change_of(alloc, &run.cells, cell as usize, effect.value),
        None => Ok(Vec::new(alloc)),
    }
}

// What a cell holds behind a write of a value to it.
fn held_behind(cells: &[i64], cell: usize, value: i64) -> i64
    ensures { result ≡ holds (slice_set cells.now cell value) cell }
{
    if cell < cells.len() { value } else { 0 }
}

// What the cell holds behind a statement that it writes.
fn value_behind(run: &Run, action: &Action, effect: &Effect, cell: u32) -> i64
    requires { effect.now.cell ≡ Some cell }
    ensures { result ≡ holds (done_by (action_is action.now) (effect_is effect.now) (state_of run.now)).cells cell }
{
    let cell = cell as usize;
    match action {
        Action::Assigns { target, .. } => match target {
            Target::Uniform(_) => number_at(&run.cells, cell),
            Target::Cell(_) | Target::Element(_, _) => held_behind(&run.cells, cell, effect.value),
        },
        Action::Prints { .. }
        | Action::Turns { .. }
        | Action::Chooses { .. }
        | Action::Bounds { .. }
        | Action::Sets { .. }
        | Action::Ranges { .. } => number_at(&run.cells, cell),
    }
}

/// What a statement outside pardo writes to its cell: what that holds behind it.
pub fn written_alone(run: &Run, action: &Action, effect: &Effect) -> Option<i64>
    ensures { result ≡ held (done_by (action_is action.now) (effect_is effect.now) (state_of run.now)).cells effect.now.cell }
{
    match effect.cell {
        None => None,
        Some(cell) => Some(value_behind(run, action, effect, cell)),
    }
}

/// The cells that a statement changes.
#[tactic(auto, using(crate::proofs::Differing::none_of_it))]
pub fn cells_changed(
    alloc: Global,
    run: &Run,
    action: &Action,
    effect: &Effect,
) -> Result<Vec<Change>, AllocError>
    ensures { IfOk result (λ ds. ds.items ≡ difference run.now.cells.items
        (done_by (action_is action.now) (effect_is effect.now) (state_of run.now)).cells) }
{
    match action {
        Action::Assigns { target, .. } => match target {
            Target::Uniform(_) => Ok(Vec::new(alloc)),
            Target::Cell(_) | Target::Element(_, _) => cell_written(alloc, run, effect),
        },
        Action::Prints { .. }
        | Action::Turns { .. }
        | Action::Chooses { .. }
        | Action::Bounds { .. }
        | Action::Sets { .. }
        | Action::Ranges { .. } => Ok(Vec::new(alloc)),
    }
}

/// The uniform variables that a statement changes.
#[tactic(auto, using(crate::proofs::Differing::none_of_it))]
pub fn variables_changed(
    alloc: Global,
    run: &Run,
    action: &Action,
    effect: &Effect,
) -> Result<Vec<Change>, AllocError>
    ensures { IfOk result (λ ds. ds.items ≡ difference run.now.uniforms.items
        (done_by (action_is action.now) (effect_is effect.now) (state_of run.now)).uniforms) }
{
    match action {
        Action::Assigns { target, .. } => match target {
            Target::Uniform(x) => change_of(alloc, &run.uniforms, *x, effect.value),
            Target::Cell(_) | Target::Element(_, _) => Ok(Vec::new(alloc)),
        },
        Action::Sets { variable } => change_of(alloc, &run.uniforms, *variable, effect.value),
        Action::Prints { .. }
        | Action::Turns { .. }
        | Action::Chooses { .. }
        | Action::Bounds { .. }
        | Action::Ranges { .. } => Ok(Vec::new(alloc)),
    }
}

// One item.
fn item(alloc: Global, value: i64) -> Result<Vec<i64>, AllocError>
    ensures { IfOk result (λ items. items.items ≡ value ∷ []) }
{
    let mut items = Vec::new(alloc);
    items.push(value)?;
    Ok(items)
}

/// What a statement prints.
pub fn items_printed(
    alloc: Global,
    run: &Run,
    action: &Action,
    effect: &Effect,
) -> Result<Vec<i64>, AllocError>
    ensures { IfOk result (λ items. items.items ≡ drop (length run.now.output.items)
        (done_by (action_is action.now) (effect_is effect.now) (state_of run.now)).output) }
{
    match action {
        Action::Prints { .. } => item(alloc, effect.value),
        Action::Assigns { .. }
        | Action::Turns { .. }
        | Action::Chooses { .. }
        | Action::Bounds { .. }
        | Action::Sets { .. }
        | Action::Ranges { .. } => Ok(Vec::new(alloc)),
    }
}
