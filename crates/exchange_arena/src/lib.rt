//! One block of memory for all messages, in pieces that are owned one by one, filled, read, cleared and joined again.
#![tactic(auto)]

mod block;
mod deed;
mod piece;
mod piece_laws;
mod run;

pub use block::{Block, MAX_SIDE};
pub use piece::{Header, MAX_ROOM, Piece};
pub use piece_laws::pieces_stand_in_order;
