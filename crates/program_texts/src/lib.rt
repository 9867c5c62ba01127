//! From the text of a program to the program, to its outcome by definition, and to the text of an outcome or a refusal.
#![tactic(auto)]

mod from_text;
mod last_flush;
mod number;
mod outcome_text;
mod show_parts;
mod status;
mod stop;
pub mod text_laws;

pub use from_text::{Refusal, TextOutcome, mean_program, meaning_of_text, read_program};
pub use last_flush::finish;
pub use number::Number;
pub use outcome_text::{kind_word, show, write_fault, write_fault_text, write_place};
pub use show_parts::{write_cell, write_entry, write_items, write_values};
pub use status::Status;
pub use stop::{Stop, limit_word, write_stop};
