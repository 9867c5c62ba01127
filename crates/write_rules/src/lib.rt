//! The write rules of a PRAM, and how a run comes out.
#![tactic(auto)]

mod common;
mod entry;
mod exclusive;
mod fault;
mod outcome;
mod priority;
mod rule_body;
mod summed;
mod values;
mod write;
mod write_rule;
pub mod writer_laws;

pub use common::Common;
pub use entry::Entry;
pub use exclusive::Exclusive;
pub use fault::Fault;
pub use outcome::Outcome;
pub use pram_values::{Kind, Place};
pub use priority::Priority;
pub use rule_body::{RuleBody, under};
pub use summed::Summed;
pub use write::Write;
pub use write_rule::WriteRule;
