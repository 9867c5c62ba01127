//! The processors of a worker by columns: a private register is a column of values, one for each of its processors.
#![tactic(auto)]

mod all;
mod answering;
mod arithmetic;
mod bank;
pub mod bank_laws;
mod cells;
mod decisions;
mod divisions;
mod instruct;
mod level;
mod listed;
mod masking;
mod masks;
mod naming;
mod numbers;
mod operand;
mod operate;
mod operation;
mod values;

pub use all::calculate_all;
pub use arithmetic::{Difference, Negative, Product, Quotient, Remainder, Sum};
pub use bank::Bank;
pub use cells::no_cells;
pub use decisions::{AtMost, Below, Both, Either, Equal, Negation};
pub use level::Level;
pub use listed::calculate_listed;
pub use masks::Masks;
pub use numbers::how_many;
pub use operand::Operand;
pub use operation::Operation;
pub use values::{Above, Constant, Same};
