//! Places of a text: the line and the column of an offset, and the line of a text with a caret below a place.
#![tactic(auto)]

mod escaped;
mod excerpt;
mod lines;
mod place;

pub use escaped::{escaped_name, names_stay_on_their_line, write_escaped};
pub use excerpt::{write_excerpt, write_line, write_line_excerpt, write_shown};
pub use lines::line_text;
pub use place::{Place, place_of};
