//! Files by their names, streams of bytes, and the line of a terminal that says how far a long call is: what a call of the program reads and
//! writes.
#![tactic(auto)]

mod console;
mod folder;
mod progress_line;
mod quiet;
mod replacing;
mod sources;
mod unwatched;

pub use console::{Stream, SystemFiles};
pub use progress_line::{ErrorStream, ProgressLine};
pub use quiet::Quiet;
pub use sources::{Beside, SourceFault, Sources, WriteRefused};
pub use unwatched::Unwatched;
