//! The listing, the one text of superstep code: writing and reading it.
#![tactic(auto)]

mod candidate;
mod cut;
mod entry_line;
mod error;
mod instr_line;
mod instrs_read;
mod layout_read;
mod lines;
pub mod listing_laws;
mod listing_read;
mod listing_write;
mod numeral;
mod operands;
mod printer;
mod rule_line;
mod spell;
mod template;

pub use error::ListingFault;
pub use listing_read::{LONGEST, read_listing};
pub use listing_write::write_listing;
pub use spell::{letter, numbers, stem};
