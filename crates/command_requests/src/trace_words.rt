//! What is told of the exchanges of a run.

/// What is told of the exchanges of a run.
#[derive(Clone, Copy, Debug)]
pub struct TraceWords {
    /// Whether the run's outcome is told behind them.
    pub outcome: bool,
    /// Whether the line of the statement that each serves is told, also in a picture.
    pub lines: bool,
    /// What a word and an exchange cost, where the sum of that is told.
    pub rates: Option<(u32, u32)>,
    /// Whether they are drawn, as SVG, with nothing behind them.
    pub drawn: bool,
}
