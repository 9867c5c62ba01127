//! From the words behind the program's name to a request.
#![tactic(auto)]

mod command_line;
mod explore_reading;
mod grammar;
mod meant;
mod names;
mod options;
mod pair_reading;
mod reading;
mod refusing;
mod run_reading;
mod scope_reading;
mod subcommands;

pub use command_line::CommandLine;
