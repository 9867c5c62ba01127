//! A barrier with total exchange: at each crossing every worker hands every worker one message.
#![tactic(auto)]

mod barrier;
mod blocks;
mod closing;
mod crossing_laws;
mod letter;
mod opening;
mod plays;
mod seats;
mod shelf;
mod start;
mod steps;
mod views;
mod work;

pub use barrier::Turnstile;
pub use crossing_laws::interleaving_law;
pub use exchange_arena::{Header, MAX_ROOM, MAX_SIDE};
pub use seats::{ColumnSeat, RowSeat};
pub use start::line::StartLine;
pub use start::runners::Runner;
pub use start::starter::Starter;
