//! What is known of a processor's part in a statement.

ghost use Rattle.std.specs.Prelude.{◌≡◌, Some, IfOk};
ghost use Rattle.std.specs.List.{All};
ghost use Rattle.abstract_runs.specs.Columns.{reach_in, targets as targets_of, AreWords, HasWords};

use crate::effect::Effect;
use crate::reach::Reach;
use intervals::Interval;
use std::alloc::{AllocError, Global};

/// What is known of a processor's part in a statement: its number among the members, its index, whether it surely takes part, the cells
/// that it may read at each position, and what it gives, if it doesn't always fault.
#[derive(Drop)]
pub struct Row {
    pub member: u32,
    pub processor: i64,
    pub is_sure: bool,
    pub trail: Vec<Option<Reach>>,
    pub effect: Option<Effect>,
}

// The ends of an interval have 64 bits.
fn know_words(value: Interval)
    ensures { AreWords (Some value) }
{}

// Where a row writes, and that the values that it writes have 64 bits.
fn target(row: &Row) -> Option<Reach>
    ensures reach { result ≡ reach_in row.now.effect }
    ensures words { HasWords row.now }
{
    let Some(effect) = row.effect else {
        return None;
    };
    know_words(effect.value);
    effect.reach
}

// Where each row writes.
pub(crate) fn targets(alloc: Global, rows: &[Row]) -> Result<Vec<Option<Reach>>, AllocError>
    ensures targets { IfOk result (λ reaches. reaches.items ≡ targets_of rows.now) }
    ensures words { IfOk result (λ reaches. All HasWords rows.now) }
{
    let mut reaches = Vec::with_capacity(alloc, rows.len())?;
    for k in 0..rows.len() {
        reaches.push(target(&rows[k]))?;
    }
    Ok(reaches)
}
