//! The laws of this crate.

pub use crate::division::division_law;
pub use crate::place::place_order;
pub use crate::total::classes_add_up;
