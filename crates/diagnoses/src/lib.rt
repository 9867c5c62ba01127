//! What a reader needs behind a refusal or a fault: the place, its line with a caret, and a sentence.
#![tactic(auto)]

mod about;
mod breaches;
mod cause_text;
mod event_text;
mod false_lines;
mod fault_text;
mod files;
mod fitting;
mod halted;
mod laws;
mod numbers;
mod parts;
mod places;
mod reason;
mod remark;
mod size_faults;
mod source;
mod standing;
mod stops;
mod syntax_faults;
mod syntax_messages;
mod text_faults;
mod undeclared;
mod wrong_element;

pub use about::{About, Unread};
pub use false_lines::write_false_line;
pub use fault_text::{write_fault_sentence, write_run_fault};
pub use fitting::Role;
pub use halted::Halted;
pub use laws::{
    a_meant_name_may_stand_there, a_name_is_meant_where_one_is_near, what_may_stand_is_not_refused,
};
pub use numbers::write_gnu_about;
pub use reason::{Reason, run_reason};
pub use source::{Kind, Source};
pub use standing::{refusal_as_it_stands, write_refused_line};
pub use stops::{bytes_in, message_of, name_in, write_stop_diagnosis};
