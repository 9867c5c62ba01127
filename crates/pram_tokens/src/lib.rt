//! The tokens of PRAM programs, and the words of input texts.
#![tactic(auto)]

mod error;
mod input;
mod lexer;
mod offset;
mod plain;
mod token;
mod words;

pub use error::{LexError, TextFault};
pub use input::read_input;
pub use lexer::{Class, LARGEST, Lexeme, tokenize};
pub use offset::offset_of;
pub use plain::{LONGEST, first_other};
pub use token::{Binary, Location, Mark, Name, Numeral, Opening, Token};
pub use words::Fixed;
