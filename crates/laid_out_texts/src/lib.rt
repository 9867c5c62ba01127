//! A program's text laid out anew, with nothing in it changed but white space.
#![tactic(auto)]

mod arranged;
mod indent;
pub mod laying_laws;
mod layout;
mod length;
mod listed;
mod piece;
mod pieces;
mod role;
mod same;
mod spelled;
mod state;

pub use arranged::lay_out;
pub use piece::{Piece, Place};
pub use role::Role;
pub use state::{Before, State};
