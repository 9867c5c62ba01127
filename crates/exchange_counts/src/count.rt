//! What a worker counts at an exchange.

use superstep_machine::Purpose;

/// What a worker counted at an exchange: what it was for, and how many words it sent and received. Headers aren't counted, words to itself
/// are.
#[derive(Clone, Copy, Debug, PartialEq, Eq)]
pub struct Count {
    pub purpose: Purpose,
    pub sent: u64,
    pub received: u64,
}
