//! What a call found is told in words, in pictures and as pages, but for the system's files and streams.
#![tactic(auto)]

mod answering;
mod choosing;
mod explaining;
mod flowing;
mod grading;
mod paging;
mod picturing;
mod stepping;
mod sweeping;
mod telling;
mod terminal;
mod tracing;
mod writing;

pub use terminal::Terminal;
