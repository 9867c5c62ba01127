//! The machine that runs superstep code on p workers, by its definition: what an exchange is for, keys, headers and words of
//! messages, and the laws of these.
#![tactic(auto)]

mod collected_law;
mod header;
mod header_law;
mod key;
pub mod machine_laws;
mod mark;
mod mark_law;
mod purpose;
mod words_law;

pub use header::MessageHeader;
pub use key::{Key, least};
pub use mark::{HeaderMark, worse};
pub use purpose::Purpose;
