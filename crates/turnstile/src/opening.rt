// How the seats of a new turnstile are made.
ghost use Rattle.std.specs.Prelude.{◌≡◌, ◌+◌, ◌<◌, ◌≤◌, [], All, length, IfOk, vec_capacity};
ghost use Rattle.turnstile.specs.Turns.{message, keeper};
ghost use Rattle.turnstile.specs.Seats.{blank_row};
ghost use Rattle.turnstile.specs.Works.{Rested, Seeing, IsSame, rows_of, columns_of, done};
ghost use Rattle.turnstile.specs.Benches.{IsBare, IsSeated, AreSeated};

use crate::letter::Letter;
use crate::plays::Seats;
use crate::seats::{RowSeat, empty_row};
use crate::steps::{Board, see_now};
use crate::work::{Chair, Work};
use std::alloc::{AllocError, Global};
use std::collections::VecDeque;

/// Room for the row and for the column of a worker.
#[derive(Drop)]
pub struct Bench {
    row: VecDeque<Letter>,
    column: VecDeque<Letter>,
}

// A bench for each worker.
pub(crate) fn benches(alloc: Global, workers: usize) -> Result<Vec<Bench>, AllocError>
    ensures count { IfOk result (λ v. length v.items ≡ workers) }
    ensures bare { IfOk result (λ v. All (IsBare workers) v.items) }
{
    let mut benches = Vec::with_capacity(alloc, workers)?;
    for _ in 0..workers {
        let row = VecDeque::with_capacity(alloc, workers)?;
        let column = VecDeque::with_capacity(alloc, workers)?;
        benches.push_reserved(Bench { row, column });
    }
    Ok(benches)
}

// Sees every worker before the first phase, so that the pieces of the first row and an empty column are there.
fn see_first(board: &Board, work: &mut Work)
    requires seat { (work.old.chair.table_id ≡ board.now.table_id) × (board.now.key.side ≡ work.old.workers)
        × (work.old.round ≡ 0) }
    requires seeing { Seeing 0 work.old }
    ensures same { IsSame work.old work.new × (rows_of work.new ≡ rows_of work.old) }
    ensures blocks { (done work.new).blocks ≡ (done work.old).blocks }
    ensures rested { Rested work.new × (columns_of work.new ≡ []) }
{
    let workers = work.workers;
    for i in 0..workers {
        see_now(board, work, i);
    }
}

// Makes the seat of the next worker. The first phase finds every piece at home.
fn seat_one(board: &Board, root: &mut Chair, bench: Bench, worker: usize, workers: usize) -> RowSeat
    requires own { (root.old.table_id ≡ board.now.table_id) × (board.now.key.side ≡ workers)
        × (board.now.table_id.words ≡ workers) × (workers ≤ 32) × (worker < workers) }
    requires root { root.old.me ≡ (keeper board.now.key workers worker [], []) }
    requires bench { IsBare workers bench }
    ensures own { (root.new.table_id ≡ root.old.table_id) × (root.new.id ≡ root.old.id) }
    ensures root { root.new.me ≡ (keeper board.now.key workers (worker + 1) [], []) }
    ensures seat { IsSeated root.old.table_id workers board.now.key.room worker result }
{
    let Bench { row, column } = bench;
    let chair = board.split_seat::<Seats>(root);
    let mut work = Work {
        chair,
        row,
        column,
        worker,
        workers,
        round: 0,
    };
    see_first(board, &mut work);
    empty_row(&mut work);
    RowSeat::of(work)
}

// Makes the seats of all workers, in order.
pub(crate) fn seat_all(
    board: &Board,
    root: &mut Chair,
    benches: Vec<Bench>,
    seats: Vec<RowSeat>,
    workers: usize,
) -> Vec<RowSeat>
    requires own { (root.old.table_id ≡ board.now.table_id) × (board.now.key.side ≡ workers)
        × (board.now.table_id.words ≡ workers) × (workers ≤ 32) }
    requires root { root.old.me ≡ (keeper board.now.key workers 0 [], []) }
    requires benches { (length benches.items ≡ workers) × All (IsBare workers) benches.items }
    requires seats { (seats.items ≡ []) × (workers ≤ vec_capacity seats) }
    ensures seats { AreSeated root.old.table_id workers board.now.key.room workers result.items }
{
    let mut benches = benches;
    let mut seats = seats;
    for worker in 0..workers {
        let bench = benches.pop().unwrap();
        seats.push_reserved(seat_one(board, root, bench, worker, workers));
    }
    seats
}
