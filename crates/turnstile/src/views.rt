// What the seats know, for the proofs alone. No value of these types is made.

use crate::blocks::Blocks;
use std::collections::LinkedList;

/// What a worker gives to another in a phase.
pub struct Message {
    pub header: [u64; 4],
    pub words: LinkedList<u64>,
}

/// What a worker has done. `sent` has the rows of its phases, `received` their columns as far as they were looked at,
/// and `seen` says which workers it has seen in the last phase. A worker has `left` when it has given back all that it
/// held.
pub struct Worker {
    pub at: usize,
    pub workers: usize,
    pub blocks: Blocks,
    pub sent: LinkedList<LinkedList<Message>>,
    pub received: LinkedList<LinkedList<Option<Message>>>,
    pub seen: LinkedList<bool>,
    pub left: bool,
}

/// What a seat stands for.
pub enum Kind {
    Spent,
    Keeper,
    Seated,
}

/// A keeper has seated the workers below `mine.at`, and has taken in those of `team`.
pub struct View {
    pub kind: Kind,
    pub mine: Worker,
    pub team: LinkedList<Worker>,
}
