//! Where a statement names the elements of an array, in the order in which it comes to them.
#![tactic(auto)]

mod expressions;
mod here;
mod statements;

pub use statements::elements_at;
