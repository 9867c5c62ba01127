//! Two programs compared on the same inputs, and one program under each of the five rules of concurrent access.
#![tactic(auto)]

mod common;
mod compare;
mod compared;
mod comparing;
mod comparison;
pub mod comparison_laws;
mod comparison_text;
mod difference;
mod difference_text;
mod ends;
mod exploring;
mod finding;
mod first_end;
mod input;
mod most;
mod noting;
mod of_kind;
mod outcomes;
mod refusal;
mod rules;
mod score;
mod show;
mod trial;
pub mod under_rules_laws;
mod unequal;
mod whose_text;

pub use common::{
    common_ranges, first_cells, first_front_cells, front_cells, named_range, whole_ranges,
};
pub use compare::compare_rules;
pub use compared::{CommonRange, Compared, Limits};
pub use comparing::{compare_drawn, compare_inputs, compare_scope};
pub use comparison::{Comparison, FoundDifference};
pub use comparison_text::{write_cells, write_comparison};
pub use difference::{Difference, Ending};
pub use exploring::{explore_drawn, explore_kind};
pub use finding::Finding;
pub use of_kind::compare_kind;
pub use refusal::{ComparisonRefusal, Side, longest};
pub use rules::UnderRules;
pub use score::Score;
pub use show::show_comparison;
pub use trial::Trial;
pub use whose_text::write_whose;
