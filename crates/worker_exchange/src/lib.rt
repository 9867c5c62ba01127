//! A worker at an exchange: the row of messages that it fills, the column that comes to it, and what it does with their messages.
#![tactic(auto)]

mod answering;
mod arrival;
mod buffers;
mod column;
mod copying;
mod deciding;
mod fill;
mod hearing;
mod local;
mod opening;
mod pack;
mod parts;
mod progress;
mod receiving;
mod refusal;
mod replying;
mod reserving;
mod row;
mod settling;
mod taking;
mod telling;
mod voting;
mod way;

pub use buffers::Buffers;
pub use column::Column;
pub use copying::put_words;
pub use deciding::decide;
pub use fill::{fill_headers, fill_replies, fill_sends};
pub use hearing::{Heard, hear};
pub use local::Local;
pub use opening::row_room;
pub use pack::pack_send;
pub use progress::{Progress, is_over, is_stopped};
pub use receiving::receive;
pub use refusal::RunRefusal;
pub use replying::take_reply;
pub use row::Row;
pub use settling::settle;
pub use taking::take_send;
pub use voting::take_vote;
pub use way::Way;
