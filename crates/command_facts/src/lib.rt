//! What a call of the program finds and why it stops, as values; what it reads of its files; and that a voice says what was found.
#![tactic(auto)]

mod editors;
mod ends;
mod found;
mod grades;
mod halted;
mod loaded;
mod loading;
mod messages;
mod opening;
mod optional;
mod status;
mod told_run;
mod unwritten;
mod voice;

pub use editors::write_for_editors;
pub use ends::{text_of_end, text_of_fault};
pub use found::{
    Found, FoundCode, FoundGrade, FoundOverall, FoundPair, FoundRun, FoundScope, FoundSteps,
    FoundSweep, FoundTrace, GradeRow, Limit, Settled,
};
pub use grades::passing;
pub use halted::halted_run;
pub use loaded::Loaded;
pub use loading::{load_listing, load_program, load_text};
pub use messages::message_for;
pub use opening::{load_input, load_opening};
pub use optional::load_where_named;
pub use status::status_of;
pub use unwritten::halted_write;
pub use voice::Voice;
