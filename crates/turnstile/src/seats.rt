// The seats of the workers.
ghost use Rattle.std.specs.Prelude.{◌≡◌, ◌<◌, ◌≤◌, ◌↔◌, length, map, IsTrue, slice_set, slice_index_or};
ghost use Rattle.std.specs.Bool.{OnTrue, OnFalse};
ghost use Rattle.turnstile.specs.Turns.{message, blank};
ghost use Rattle.turnstile.specs.Seats.{blank_row, IsRowSeat, IsColumnSeat};
ghost use Rattle.turnstile.specs.Works.{Rested, row_state, column_state, SameButRow};

use crate::work::Work;
use exchange_arena::Header;
use std::marker::Model;

/// The seat of a worker that fills the row of the coming phase.
///
/// A seat may be sent to another thread, and let go. The memory of its turnstile is then never freed.
#[derive(Drop)]
pub struct RowSeat {
    work: Work,
}

impl Model for RowSeat {
    ghost use Rattle.turnstile.specs.Seats.{RowState};

    ghost Value = { RowState };

    ghost use Rattle.turnstile.specs.Works.{Rested, row_state};

    ghost view = { λ s. row_state s.work };

    ghost invariant = { λ s. Rested s.work };
}

/// The seat of a worker that reads the column of the last phase.
#[derive(Drop)]
pub struct ColumnSeat {
    work: Work,
}

impl Model for ColumnSeat {
    ghost use Rattle.turnstile.specs.Seats.{ColumnState};

    ghost Value = { ColumnState };

    ghost use Rattle.turnstile.specs.Works.{Rested, column_state};

    ghost view = { λ s. column_state s.work };

    ghost invariant = { λ s. Rested s.work };
}

impl RowSeat {
    pub(crate) fn of(work: Work) -> RowSeat
        requires rested { Rested work }
        ensures value { result ≡ row_state work }
    {
        RowSeat { work }
    }

    pub(crate) fn into_work(self) -> Work
        ensures rested { Rested result }
        ensures value { row_state result ≡ self }
    {
        let RowSeat { work } = self;
        work
    }

    /// Whose seat it is.
    pub fn worker(&self) -> usize
        ensures value { result ≡ self.now.worker }
        // A seat is one of at most 32, with an entry of its row for each worker, and as many columns as rows, each with
        // all workers' messages.
        ensures seat { IsRowSeat self.now }
    {
        self.work.worker
    }

    /// How many crossings the worker has made.
    pub fn phase(&self) -> u64
        ensures value { result ≡ length self.now.sent }
    {
        self.work.round
    }

    /// Puts this header and these words into the row, for the worker `to`, in place of what stood there.
    ///
    /// `false` says that there are more words than a message has room for.
    pub fn fill(&mut self, to: usize, header: Header, words: &[u64]) -> bool
        requires worker { to < self.old.workers }
        ensures fits { IsTrue result ↔ (length words.now ≤ self.old.room) }
        ensures filled { OnTrue result (self.new ≡ record self.old {
          row = slice_set self.old.row to (record { header = header; words = words.now });
        }) }
        ensures refused { OnFalse result (self.new ≡ self.old) }

        // Nothing but the row may change.
        ensures same { self.new ≡ record self.old { row = self.new.row } }
    {
        self.work.row[to].fill(header, words)
    }
}

impl ColumnSeat {
    pub(crate) fn of(work: Work) -> ColumnSeat
        requires rested { Rested work }
        ensures value { result ≡ column_state work }
    {
        ColumnSeat { work }
    }

    pub(crate) fn into_work(self) -> Work
        ensures rested { Rested result }
        ensures value { column_state result ≡ self }
    {
        let ColumnSeat { work } = self;
        work
    }

    /// Whose seat it is.
    pub fn worker(&self) -> usize
        ensures value { result ≡ self.now.worker }
        // A seat is one of at most 32, with an entry of its column for each worker, and as many columns as rows, each
        // with all workers' messages.
        ensures seat { IsColumnSeat self.now }
    {
        self.work.worker
    }

    /// The header that the worker `i` sent in the last phase, or zero where it filled none.
    pub fn header(&self, i: usize) -> Header
        requires worker { i < self.now.workers }
        ensures value { result ≡ (slice_index_or self.now.column i blank).header }
    {
        self.work.column[i].header()
    }

    /// The words that the worker `i` sent in the last phase, lent without copying, or none where it filled none.
    pub fn from(&self, i: usize) -> &[u64]
        requires worker { i < self.now.workers }
        ensures value { result.now ≡ (slice_index_or self.now.column i blank).words }
        ensures few { length result.now ≤ self.now.room }
    {
        self.work.column[i].words()
    }
}

// Empties the row, for the next phase.
pub(crate) fn empty_row(work: &mut Work)
    requires rested { Rested work.old }
    ensures rested { Rested work.new }
    ensures row { map message work.new.row.items ≡ blank_row work.old.workers }
    ensures same { SameButRow work.old work.new }
{
    for j in 0..work.row.len() {
        work.row[j].clear();
    }
}
