//! A page of HTML that steps through a run, with what it knows of the run as JSON in it.
#![tactic(auto)]

mod asked;
mod behind;
mod cut;
mod drawing;
mod facts;
mod first_lines;
mod gatherer;
mod gathering;
mod last_lines;
mod line_end;
mod lines;
mod markup;
mod moving;
mod numbers;
mod opening;
mod page;
pub mod page_laws;
mod page_parts;
mod pardos;
mod recent;
mod replayer;
mod run_facts;
pub mod run_laws;
mod state;
mod stepping;
mod streaming;
mod telling;

pub use streaming::stream_page;
