//! A run statement by statement in words: a line for each, of all that changed or of some names, written as the run goes.
#![tactic(auto)]

mod asked;
mod beside_cells;
mod columns;
mod failure;
mod focus;
mod focusing;
mod manner;
mod names;
mod own_locals;
mod ran;
mod step_text;
mod stream;
mod streaming;
mod telling;
mod terminal;
mod values;

pub use failure::StreamFailure;
pub use focus::Focus;
pub use manner::Manner;
pub use names::undeclared_name;
pub use streaming::stream_steps;
pub use telling::{Detail, Telling};
