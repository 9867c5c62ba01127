//! What a call found is told as JSON, but for the system's files and streams.
#![tactic(auto)]

mod answering;
mod grading;
mod reporting;
mod stepping;
mod telling;
mod writing;

pub use answering::Json;
