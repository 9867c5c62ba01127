//! What a worker holds for the next exchange, and what a module does with what comes.
#![tactic(auto)]

mod alone;
mod answers;
mod apart;
mod ascending;
mod asks;
mod cells;
pub mod combining_laws;
mod compact;
mod index;
mod linking;
mod merge;
mod near;
mod puts;
mod readers;
mod runs;
mod single;
mod slots;
mod states;
mod words;
mod writes;

pub use answers::answer_asks;
pub use asks::Asks;
pub use cells::Cells;
pub use index::Index;
pub use merge::merge_at_module;
pub use puts::Puts;
pub use readers::{asks_are_apart, read_conflict};
pub use writes::Writes;
