//! What a run costs: its time and work, its reads and writes, and the bounds that these give; and the text of that.
#![tactic(auto)]

// A type of the definitions.

mod accesses;
mod alone;
mod beginning;
mod cost;
pub mod cost_laws;
mod cost_text;
mod counting;
mod entering;
mod exchanges;
mod hearing;
mod ledger;
mod levels;
mod line_cost;
mod line_text;
mod meter;
mod row_costs;
mod spending;
mod taken;
mod tally;
mod time_step;
mod timing;
mod too_many;
mod whole;
mod words;

pub use alone::time_and_work;
pub use cost::{Cost, cost_of};
pub use cost_text::write_cost;
pub use line_cost::LineCost;
pub use line_text::write_lines;
pub use taken::TimeAndWork;
pub use time_step::TimeStep;
