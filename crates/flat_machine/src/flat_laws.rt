//! The laws of this crate.

pub use crate::control_law::one_control;
pub use crate::flatness_law::{one_list_of_exchanges, runs_agree, workers_are_flat};
pub use crate::verdict_law::{
    a_key_is_for_good, a_verdict_may_be_late, any_time_of_verdict, one_outcome,
};
