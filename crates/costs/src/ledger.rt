//! What was counted of a run and of each of its lines.

ghost use Rattle.std.specs.Prelude.{◌≤◌, ◌^◌, length};
ghost use Rattle.std.specs.List.{All};

use crate::exchanges::Exchanges;
use crate::tally::Tally;

/// What was counted so far of all statements, and of those of each line: line l has row l. A line behind the last row
/// has not run. Beside it, what was spent on exchanges.
#[derive(Drop)]
pub struct Ledger {
    pub all: Tally,
    pub lines: Vec<Tally>,
    pub exchanges: Exchanges,
    ghost among_all: { All (λ row. row.time ≤ all.time) lines.items },
    ghost few: { length lines.items ≤ 2 ^ 32 },
}
