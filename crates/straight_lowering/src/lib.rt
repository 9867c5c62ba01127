//! The instructions that evaluate one statement, as the compiler writes them: reads, operations and a held write, without jumps.
#![tactic(auto)]

mod assignment;
mod conditions;
mod cursor;
mod emitter;
mod operator;
mod ranges;
mod reads;
mod region;
mod values;

pub use assignment::{assign, print, step_assign};
pub use conditions::{flagged, flags, masked, parted, tested};
pub use cursor::next_register;
pub use emitter::{Emitter, short};
pub use ranges::{Turns, bounds, entered, setting, turns_from};
pub use region::{local, variable};
