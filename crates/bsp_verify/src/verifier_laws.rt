//! The laws of this crate.

pub use crate::paths_law::paths_are_sound;
pub use crate::runs_law::{moments_are_sound, reads_have_one_side, runs_are_sound, runs_arrive};
pub use crate::stretches_law::{stretches_make_code, worked_stretches};
