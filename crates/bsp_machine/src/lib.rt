//! A worker that counts its exchanges, what such workers come to, and a run of verified code by all of them in turn, on one thread.
#![tactic(auto)]

mod collecting;
mod columns;
mod counted;
mod end_room;
mod letter;
mod memory;
mod opening;
mod outcome;
mod phase;
mod phases;
mod picked;
mod plain;
mod sheet;

pub use collecting::collect;
pub use counted::CountedWorker;
pub use end_room::EndRoom;
pub use opening::open_all;
pub use plain::run_plain;
pub use superstep_machine::Purpose;
pub use worker_exchange::{Column, Local, Progress, Row, RunRefusal, put_words, receive, row_room};
