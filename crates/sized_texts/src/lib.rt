//! One text for every size: `{2*n}` stands for a number.
#![tactic(auto)]

mod atom;
mod expanded;
mod expansion;
mod expression;
mod false_lines;
mod fault;
mod filling;
mod formula;
mod front;
mod head;
mod line;
mod operation;
mod pieces;
mod progression;
mod reason;
mod size;
pub mod size_laws;
mod size_line;
mod size_list;
mod size_range;
mod size_table;
mod size_word;
mod stop;
mod sweep;

pub use atom::Atom;
pub use expanded::Expanded;
pub use expansion::expand;
pub use false_lines::false_line;
pub use fault::SizeFault;
pub use filling::fill;
pub use formula::number_by;
pub use line::Line;
pub use operation::{Function, Operator, applied, called};
pub use reason::{Reason, reason_word};
pub use size::Size;
pub use size_word::{name_of, read_size};
pub use stop::Wrong;
pub use sweep::{Sweep, read_sweep};
