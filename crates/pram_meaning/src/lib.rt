//! The meaning of a checked program, and its reference interpreter.
//!
//! The interpreter tells each moment of a run to a listener. What a listener is lent of a statement is public, and how that is judged.
#![tactic(auto)]

mod access;
pub mod action;
mod alone;
mod ascent;
pub mod attempt;
pub mod conflict;
mod inside;
pub mod interpreter;
mod key;
pub mod listener;
pub mod meaning_laws;
pub mod numbers;
mod observation;
mod operation;
mod outside;
pub mod part;
mod read;
mod reference;
mod rule;
pub mod run;
pub mod silent;
pub mod slate;
pub mod team;
pub mod together;
pub mod view;

// `Key` and `Read` are types of the definitions.
pub use key::Key;
pub use observation::{MeaningRefusal, check_input, observe, open};
pub use operation::{apply, apply_before};
pub use read::Read;
pub use reference::reference_run;
