//! Files that calls write: texts laid out anew, and the first input on which something goes wrong.
#![tactic(auto)]

mod arranging;
mod choosing;
mod gathering;
mod saying;
mod told;
mod witness;

pub use arranging::{ArrangedFile, arrange_file};
pub use choosing::first_wrong;
pub use gathering::Gathered;
pub use saying::say_arranged;
pub use witness::say_witness;
