//! What of two runs is compared.

/// Cells of two programs side by side: so many cells of the first program from the number `first_start` on, and as many of the second
/// from `second_start` on. Cells are numbered from 0.
#[derive(Clone, Copy)]
pub struct CommonRange {
    pub first_start: u32,
    pub second_start: u32,
    pub length: u32,
}

/// The most statements (time), and the most work, that a run of the second program may take to its end; none where it may take any. Where
/// it stops, it is run for no more statements than the limit of time has: a run that would take more goes on there.
#[derive(Clone, Copy)]
pub struct Limits {
    pub time: Option<u64>,
    pub work: Option<u64>,
    pub stops: bool,
}

/// What of two runs that end is compared: their output, or not, and the values of these cells. A run of the second program that ends is
/// held against the limits besides.
#[derive(Drop)]
pub struct Compared {
    pub output: bool,
    pub ranges: Vec<CommonRange>,
    pub limits: Limits,
}
