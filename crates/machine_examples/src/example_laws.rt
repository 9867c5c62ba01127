//! The laws of this crate.

pub use crate::machine_law::{broadcast_on_two_workers, faults_that_are_told};
pub use crate::worked_law::{
    a_cell_in_conflict_keeps_its_value, exchanges_that_decide, inactive_processors_do_nothing,
    ranges_begin_anew, reads_that_are_no_conflict, sums_replace_the_old_value,
    uniform_writes_are_made_once, votes_of_all_workers,
};
