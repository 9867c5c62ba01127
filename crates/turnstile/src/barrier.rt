// The turnstile.
ghost use Rattle.std.specs.Prelude.{◌≡◌, ◌+◌, ◌^◌, ◌<◌, ◌≤◌, List, [], ◌∷◌, ◌++◌, length, IfOk};
ghost use Rattle.exchange_arena.specs.declared.block.TheConstants.{MAX_SIDE};
ghost use Rattle.exchange_arena.specs.declared.piece.TheConstants.{MAX_ROOM};
ghost use Rattle.turnstile.specs.Seats.{SameSeat, AreFresh, AreSeatsOf, AreWhole, SamePhases, ReceivedAsSent, blank_row};

use crate::blocks::Blocks;
use crate::closing::take_all;
use crate::letter::Letter;
use crate::opening::{benches, seat_all};
use crate::plays::{Collect, Turns};
use crate::seats::{ColumnSeat, RowSeat, empty_row};
use crate::steps::pass;
use crate::views::View;
use atomic_table::{Refused, Table};
use std::alloc::{AllocError, Global};
use std::marker::Model;
use std::mem::ManuallyDrop;
use std::sync::Wait;

/// A barrier at which each worker hands each one a message, at every crossing.
///
/// It may be lent to threads. `Turnstile::close` gives its memory back; where it is let go the memory is never freed. A worker that waits
/// for another sleeps at once, unless `set_looks` says how often it looks before.
#[derive(Drop)]
pub struct Turnstile {
    table: Table<Option<Letter>, View, Blocks, Turns, Global>,
    blocks: ManuallyDrop<Blocks>,
    workers: usize,
    looks: u32,
}

impl Model for Turnstile {
    ghost use Rattle.turnstile.specs.Seats.{TurnstileShape};

    ghost Value = { TurnstileShape };

    ghost use Rattle.std.specs.Prelude.{◌≡◌, ◌*◌, ◌<◌, ◌≤◌};
    ghost use Rattle.std.specs.Mem.{manually_drop_value};

    ghost view = { λ t. record {
      table = t.table.shared.table_id;
      workers = t.workers;
      room = t.table.shared.key.room;
    } };

    ghost invariant = { λ t. (t.table.shared.key ≡ manually_drop_value t.blocks)
        × (t.table.shared.key.side ≡ t.workers)
        × (t.table.shared.table_id.words ≡ t.workers) × (t.table.shared.table_id.slots ≡ 2 * t.workers * t.workers)
        × (0 < t.workers) × (t.workers ≤ 32) };
}

impl Turnstile {
    /// A turnstile for so many workers, whose messages have room for `room` words each, and the seats of the workers,
    /// in order.
    ///
    /// The only error is that memory is refused, and then none of it is kept.
    pub fn new(
        alloc: Global,
        workers: usize,
        room: usize,
    ) -> Result<(Turnstile, Vec<RowSeat>), AllocError>
        requires workers { (0 < workers) × (workers ≤ MAX_SIDE) }
        requires room { room ≤ MAX_ROOM }
        ensures workers { IfOk result (λ made. made.0.workers ≡ workers) }
        ensures room { IfOk result (λ made. made.0.room ≡ room) }
        ensures seats { IfOk result (λ made. AreSeatsOf made.0 made.1.items) }
        ensures fresh { IfOk result (λ made. AreFresh made.0 made.1.items) }
    {
        let words = Vec::from_elem(alloc, 0u64, workers)?;
        let benches = benches(alloc, workers)?;
        let seats = Vec::with_capacity(alloc, workers)?;
        let (blocks, slots) = Blocks::new(alloc, workers, room)?;
        match Table::new(alloc, words.as_slice(), slots, &blocks) {
            Ok((table, mut root)) => {
                let seats = seat_all(&table.shared, &mut root, benches, seats, workers);
                let turnstile = Turnstile {
                    table,
                    blocks: unsafe { ManuallyDrop::new_unchecked(blocks) },
                    workers,
                    looks: 0,
                };
                Ok((turnstile, seats))
            }
            Err(Refused { slots }) => {
                blocks.take_back(slots);
                Err(AllocError)
            }
        }
    }

    /// How often a worker looks at another that it waits for before it sleeps. A sleep and the wake behind it take microseconds, which
    /// looks save where the other comes within that time on a processor of its own; where it waits for this one's processor, they cost it
    /// time.
    pub fn set_looks(&mut self, looks: u32)
        ensures { self.new ≡ self.old }
    {
        self.looks = looks;
    }

    /// Hands over the row, waits until every worker has handed over its row of the same phase, and lends the column that
    /// they make: what each worker sent to this one.
    pub fn cross<R: Wait>(&self, rt: &R, seat: RowSeat) -> ColumnSeat
        requires own { seat.table ≡ self.now.table }
        requires few { length seat.sent < 2 ^ 63 }
        ensures seat { SameSeat seat result }
        // Just the row that is handed over is added to what the worker sent.
        ensures sent { result.sent ≡ seat.sent ++ seat.row ∷ [] }
        // Just the column that is lent is added to what the worker received.
        ensures received { result.received ≡ seat.received ++ result.column ∷ [] }
        // The column that is lent has a message from each worker.
        ensures whole { length result.column ≡ seat.workers }
    {
        let mut work = seat.into_work();
        pass(rt, &self.table.shared, &mut work, self.looks);
        ColumnSeat::of(work)
    }

    /// Gives up the column, and gives the row of the next phase, with no words and a zero header for each worker.
    pub fn turn<R>(&self, _rt: &R, seat: ColumnSeat) -> RowSeat
        ensures seat { SameSeat result seat }
        // What the worker sent stays.
        ensures sent { result.sent ≡ seat.sent }
        // What the worker received stays.
        ensures received { result.received ≡ seat.received }
        // The new row has for each worker a message with no words and a zero header.
        ensures row { result.row ≡ blank_row seat.workers }
    {
        let mut work = seat.into_work();
        empty_row(&mut work);
        RowSeat::of(work)
    }

    /// Takes all seats back, in order of the workers, and frees the memory.
    pub fn close(self, seats: Vec<RowSeat>)
        requires seats { AreSeatsOf self seats.items }
        // All workers made equally many crossings.
        ensures phases { SamePhases seats.items }
        // In each crossing, what a worker received from another is what that one sent to it.
        ensures exchanged { ReceivedAsSent seats.items }
        // Each row that was sent and each column that was received has a message for each worker.
        ensures whole { AreWhole seats.items }
    {
        let Turnstile {
            table,
            blocks,
            workers,
            looks: _,
        } = self;
        let (_, mut root) = table.shared.load_new_seat::<Collect>(0);
        take_all(&table.shared, &mut root, seats, workers);
        ManuallyDrop::into_inner(blocks).collect(table.close_with(root));
    }
}
