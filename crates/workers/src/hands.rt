//! The seats of a turnstile as rows and columns of messages.

ghost use Rattle.std.specs.Prelude.{◌≡◌, ℕ};
ghost use Rattle.workers.specs.Seating.{AreShort};

use bsp_machine::{Column, Row};
use turnstile::{ColumnSeat, RowSeat};

/// A seat whose row a worker fills with the messages of an exchange.
#[derive(Drop)]
pub struct RowHand {
    pub seat: RowSeat,
}

/// A seat whose column is the messages that came in an exchange. None is longer than the seat has room for.
#[derive(Drop)]
pub struct ColumnHand {
    pub seat: ColumnSeat,
    ghost short: { AreShort seat },
}

impl Row for RowHand {
    ghost use Rattle.std.specs.Prelude.{refl};
    ghost use Rattle.workers.specs.Seating.{letters, only_row, only_row_on};

    ghost filled = { λ h. letters h.seat.row };

    ghost room = { λ h. h.seat.room };

    ghost kept = { λ a b. only_row a.seat b.seat };

    ghost kept_same = { λ h. refl };

    ghost kept_on = { λ a b c h k. only_row_on a.seat b.seat c.seat h k };

    fn fill(&mut self, to: usize, header: [u64; 4], words: &[u64]) -> bool {
        let _worker = self.seat.worker();
        self.seat.fill(to, header, words)
    }
}

impl Column for ColumnHand {
    ghost use Rattle.workers.specs.Seating.{letters};

    ghost came = { λ h. letters h.seat.column };

    ghost room = { λ h. h.seat.room };

    ghost fits = { λ h i. h.short i };

    fn header(&self, from: usize) -> [u64; 4] {
        let _worker = self.seat.worker();
        self.seat.header(from)
    }

    fn words(&self, from: usize) -> &[u64] {
        let _worker = self.seat.worker();
        self.seat.from(from)
    }
}

impl ColumnHand {
    /// The column of a seat of so many workers. It looks at each message, which is no longer than the room of its piece.
    pub fn of(seat: ColumnSeat, workers: usize) -> ColumnHand
        requires workers { workers ≡ seat.workers }
        // The messages are those of the seat's column.
        ensures seat { result.seat ≡ seat }
    {
        let _worker = seat.worker();
        'messages: for i in 0..workers {
            let _words = seat.from(i);
        }
        ColumnHand { seat }
    }
}
