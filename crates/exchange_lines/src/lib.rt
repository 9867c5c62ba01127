//! The line of each exchange of a run, that of the statement that began last, as a definition: of the workers of every map it is that of
//! one memory.
#![tactic(auto)]

pub mod line_laws;
