//! Which superstep code can run: the states of its places, and the verifier.
#![tactic(auto)]

mod fault;
mod judge;
mod paths_law;
mod runs_law;
mod state;
mod stretches_law;
mod table;
mod verified;
mod verifier;
pub mod verifier_laws;

pub use fault::{Reason, VerifyFault};
pub use state::State;
pub use verified::Verified;
pub use verifier::verify;
