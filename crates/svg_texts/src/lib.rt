//! Pictures as SVG 1.1: their shapes, as values, and the text of each.
#![tactic(auto)]

mod colour;
mod form;
pub mod laws;
mod lettering;
mod letters;
mod paint;
mod picture;
mod plain;
mod shapes;
mod texts;

pub use colour::Colour;
pub use form::Form;
pub use lettering::{Anchor, Face, Lettering};
pub use letters::write_letters;
pub use paint::{Fill, Paint, Stroke, Weight};
pub use picture::{close_picture, open_picture};
pub use plain::{
    open_label, write_decimal, write_filled, write_label, write_line, write_number, write_numbered,
    write_outlined,
};
pub use shapes::{
    close_points, close_titled, open_points, open_titled, write_form, write_point, write_title_end,
};
pub use texts::{close_text, open_text, write_text};
