//! Memory as text: which shared declarations are written where a run ends, the values that such a text gives back, and the text of an input.
#![tactic(auto)]

mod assignment;
mod cells;
mod choice;
mod chosen;
mod front;
mod heading;
pub mod input_laws;
mod memory_fault;
mod reading;
mod values_text;

pub use choice::{Choice, is_chosen, unknown_name};
pub use chosen::show_chosen;
pub use memory_fault::MemoryFault;
pub use reading::read_memory;
pub use values_text::input_text;
