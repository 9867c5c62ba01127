//! Runs of a program at several sizes: how time and work grow, as a formula, in words and as a table.
#![tactic(auto)]

mod choice;
mod csv_field;
mod csv_laws;
mod csv_text;
mod doubling;
mod echelon;
mod equation;
mod finding;
mod fitting;
mod formula;
mod growth;
mod growth_text;
mod growths;
mod measure;
mod natural;
mod quotient;
mod row;
mod size_row;
mod solution;
mod sweep_text;
mod term;
mod wide;

pub use csv_laws::fields_are_read_back;
pub use csv_text::write_sweep_csv;
pub use finding::fit;
pub use formula::Formula;
pub use growth::Growth;
pub use growth_text::{write_growth, write_growth_words};
pub use growths::{Growths, growths_of};
pub use measure::Measure;
pub use row::Row;
pub use size_row::{Counts, Ending, SizeRow};
pub use sweep_text::write_sweep;
