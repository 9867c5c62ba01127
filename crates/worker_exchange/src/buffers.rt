//! Room for the words of an exchange.

/// Room for the words of an exchange: a list for each worker, with the number of the puts in it, and a list for one reply. And how many
/// words the worker sent in its last exchange, headers left out.
#[derive(Drop)]
pub struct Buffers {
    pub words: Vec<Vec<u64>>,
    pub counts: Vec<u32>,
    pub reply: Vec<u64>,
    pub sent: u64,
}
