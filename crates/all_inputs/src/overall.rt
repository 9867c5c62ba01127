//! What is told of a program's runs on all inputs of a scope.

use crate::ending::Ending;
use crate::told::Told;

/// What is told of a program's runs on all inputs of a scope: the faults that may come, whether a run may go on behind the bound, and what
/// is known of those that end, if any may.
#[derive(Drop)]
pub struct Overall {
    pub told: Told,
    pub end: Option<Ending>,
}
