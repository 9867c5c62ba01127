//! What a run at a size comes to.

/// What the run at a size costs, as far as it goes.
#[derive(Clone, Copy, Debug, PartialEq, Eq)]
pub struct Counts {
    pub time: u32,
    pub work: u64,
    pub width: u32,
    pub reads: u128,
    pub writes: u64,
    pub most_exchanges: u128,
    /// Where a number of workers is given, the most words that they send.
    pub most_words: Option<u128>,
}

/// How the run at a size comes out.
#[derive(Drop)]
pub enum Ending {
    Ended(Counts),
    GoesOn(Counts),
    /// With the text of the fault, as `fault read-conflict a[1] line 4`. Of its counts neither exchanges nor words are told.
    Faulted(Counts, Vec<u8>),
    /// There is no run: the text of the refusal, as `refused E11 InputTooLong`.
    Refused(Vec<u8>),
}

/// A size, and what the run at it comes to.
#[derive(Drop)]
pub struct SizeRow {
    pub size: u64,
    pub ending: Ending,
}
