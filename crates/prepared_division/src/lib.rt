//! A divisor that is prepared once, so that a division by it is a multiplication and a shift.
#![tactic(auto)]

mod divisor;
mod power;
mod recent;

pub use divisor::Divisor;
pub use power::PowerOfTwo;
pub use recent::RecentDivisors;
