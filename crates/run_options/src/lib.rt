//! The options of a run: numbers, the maps of its cells, and how many places those have.
#![tactic(auto)]

mod map_choice;
mod number;
mod options;
mod pair;
mod place_count;
mod reserve;
pub mod spelling_laws;
mod terms;

pub use map_choice::{MapChoice, read_map};
pub use number::read_number;
pub use options::Options;
pub use pair::read_pair;
pub use place_count::places;
pub use reserve::Reserve;
pub use terms::Terms;
