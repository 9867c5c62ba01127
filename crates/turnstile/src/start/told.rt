// What the seats of a start line know, for the proofs alone. No value of these types is made.

use std::collections::LinkedList;

/// What was said, or what a runner has heard.
pub enum Told<X> {
    Nothing,
    Stop,
    Go(X),
}

/// What a seat stands for.
pub enum Role {
    Spent,
    Starter,
    Runner,
}

/// The starter has made the runners below `at`, has `said` something, and has `taken` in what runners heard. It `holds`
/// the slots until it says something. A runner has `heard` something, and holds its slot until it is `back`.
pub struct Part<T> {
    pub role: Role,
    pub at: usize,
    pub holds: bool,
    pub said: Told<LinkedList<T>>,
    pub heard: Told<T>,
    pub back: bool,
    pub taken: LinkedList<(usize, Told<T>, bool)>,
}
