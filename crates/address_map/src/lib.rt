//! Maps of cells onto the offsets of modules, each of them one to one.
#![tactic(auto)]

mod affine;
mod fault;
mod identity;
mod map;
mod round;
mod rounds;
mod spread;

pub use affine::Affine;
pub use fault::MapFault;
pub use identity::Identity;
pub use map::AddressMap;
pub use rounds::Rounds;
