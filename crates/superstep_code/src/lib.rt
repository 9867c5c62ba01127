//! Superstep code, by its front door: instructions, code, and its listing.
#![tactic(auto)]

pub use pram_model::{Layout, Range, Rule};
pub use superstep_instructions::{Arithmetic, Code, Instr, Side, Truth};
pub use superstep_listing::{LONGEST, ListingFault, read_listing, write_listing};
