//! Programs compiled, run and shown, and the whole command, but for the system's files and streams.
#![tactic(auto)]

mod answering;
mod commanding;
mod finding;

pub use command_text::Terminal;
pub use commanding::command;
pub use exchange_counts::{Count, Counts};
pub use observing::Watch;
pub use program_runs::{
    Report, compile, compile_program, run_code, run_program, run_text, run_text_reserved,
};
pub use program_texts::{
    Refusal, Status, Stop, mean_program, meaning_of_text, read_program, show, write_stop,
};
pub use run_options::{MapChoice, Options, Reserve};
pub use system_files::{Beside, ErrorStream, ProgressLine, SourceFault, Sources, Unwatched};
pub use workers::{Gate, OpenGate};
