//! What the commands tell, as JSON: a line for each fact of an outcome, its costs, its steps and what is refused.
#![tactic(auto)]

mod accepted;
mod acts;
mod asked;
mod cause;
mod cost;
mod exchange;
mod exploration;
mod fault;
mod grade;
mod line;
mod memory;
mod message;
mod object;
mod outcome;
mod overall;
mod own_locals;
mod pair;
mod reasons;
mod refusal;
mod rules;
mod steps;
mod stream;
mod streaming;
mod sweep;
mod trace;
mod values;

pub use accepted::json_accepted;
pub use cost::json_cost;
pub use exploration::json_exploration;
pub use grade::{Marks, push_graded, push_passing, push_ungraded};
pub use line::line_of;
pub use message::json_refusal;
pub use object::Object;
pub use outcome::{json_opening, json_outcome};
pub use overall::{json_overall, json_undecided};
pub use pair::json_pair;
pub use refusal::out_of_memory_line;
pub use rules::json_comparison;
pub use serde_json::Value;
pub use steps::json_step;
pub use streaming::stream_json;
pub use sweep::json_sweep;
pub use trace::json_trace;
