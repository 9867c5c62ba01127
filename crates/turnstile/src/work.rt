// What a worker has with it, whether it fills a row or reads a column.

use crate::letter::Letter;
use crate::views::View;
use atomic_table::Seat;
use std::collections::VecDeque;

pub(crate) type Chair = Seat<Option<Letter>, View>;

/// The row of the next phase and the column of the last one, in the order of the workers. `round` is that last phase.
#[derive(Drop)]
pub struct Work {
    pub(crate) chair: Chair,
    pub(crate) row: VecDeque<Letter>,
    pub(crate) column: VecDeque<Letter>,
    pub(crate) worker: usize,
    pub(crate) workers: usize,
    pub(crate) round: u64,
}
