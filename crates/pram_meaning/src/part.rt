//! Parts of processors in a statement.

use crate::attempt::Effect;
use pram_values::Kind;

/// A processor's part in a statement: its number among the members, its index, the cells that it
/// read by position, and what its attempt gave.
#[derive(Drop)]
pub struct Part {
    pub member: u32,
    pub processor: i64,
    pub trail: Vec<Option<u32>>,
    pub outcome: Result<Effect, Kind>,
}
