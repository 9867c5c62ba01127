//! Columns of messages.

use crate::sheet::Sheet;
use worker_exchange::Column;

/// A column: of each row the message to one worker.
#[derive(Drop)]
pub(crate) struct Picked<'a> {
    pub(crate) rows: &'a [Sheet],
    pub(crate) worker: usize,
}

impl<'a> Column for Picked<'a> {
    ghost use Rattle.bsp_machine.specs.Sheets.{picked, longest};
    ghost use Rattle.bsp_machine.specs.ColumnLaws.{none_longer};

    ghost came = { λ c. picked c.worker c.rows.now };

    ghost room = { λ c. longest (picked c.worker c.rows.now) };

    fn header(&self, from: usize) -> [u64; 4] {
        match self.rows[from].letters.get(self.worker) {
            Some(letter) => letter.header,
            None => [0; 4],
        }
    }

    fn words(&self, from: usize) -> &[u64] {
        match self.rows[from].letters.get(self.worker) {
            Some(letter) => letter.words.as_slice(),
            None => &[],
        }
    }

    ghost fits = { λ c i. none_longer (picked c.worker c.rows.now) i };
}
