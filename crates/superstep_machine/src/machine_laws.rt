//! The laws of this crate.

pub use crate::collected_law::{
    collected_in_any_order, order_of_keys, writers_get_what_the_rule_gives,
};
pub use crate::header_law::headers_are_given_back;
pub use crate::mark_law::{any_mark_stops_all, marks_come_one_by_one, runs_up_to_a_mark};
pub use crate::words_law::{
    machine_words_read_back, words_are_what_came, words_read_back, worked_words,
};
