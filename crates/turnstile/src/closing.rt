// How the seats come back.
ghost use Rattle.std.specs.Prelude.{◌≡◌, ℕ, ◌+◌, List, [], ◌∷◌, length, map, Some, slice_get};
ghost use Rattle.turnstile.specs.Turns.{keeper, departed};
ghost use Rattle.turnstile.specs.Works.{Rested, done};
ghost use Rattle.turnstile.specs.Seats.{RowState};
ghost use Rattle.turnstile.specs.Closings.{AreWorksOf, gone};
ghost use Rattle.turnstile.specs.declared.views.Worker.{Worker};
ghost use Rattle.turnstile.specs.declared.work.Work.{Work};

use crate::plays::TakesIn;
use crate::seats::RowSeat;
use crate::steps::{Board, depart, lay_all};
use crate::work::{Chair, Work};

// Takes in the seat of the last worker that is not taken in yet.
fn take_in(board: &Board, root: &mut Chair, mut work: Work)
    requires own { (root.old.table_id ≡ board.now.table_id) × (work.chair.table_id ≡ board.now.table_id)
        × (board.now.key.side ≡ work.workers) }
    requires root { (xs : List Worker) × (root.old.me ≡ (keeper board.now.key work.workers work.workers xs, []))
        × (work.worker + 1 + length xs ≡ work.workers) }
    requires rested { Rested work }
    ensures own { (root.new.table_id ≡ root.old.table_id) × (root.new.id ≡ root.old.id) }
    ensures root { root.new.me ≡ (
      keeper board.now.key work.workers work.workers (departed (done work)
          ∷ root.old.me.0.team),
      [],
    ) }
{
    lay_all(board, &mut work);
    depart(board, &mut work.chair);
    let Work {
        chair,
        row: _,
        column: _,
        worker: _,
        workers: _,
        round: _,
    } = work;
    board.join_seat::<TakesIn>(root, chair);
}

// Takes in all seats, the last worker's first.
pub(crate) fn take_all(board: &Board, root: &mut Chair, seats: Vec<RowSeat>, workers: usize)
    requires own { (root.old.table_id ≡ board.now.table_id) × (board.now.key.side ≡ workers)
        × (board.now.table_id.words ≡ workers) }
    requires root { root.old.me ≡ (keeper board.now.key workers workers [], []) }
    requires seats { (length seats.items ≡ workers) × ((k : ℕ) (r : RowState) → slice_get seats.items k ≡ Some r
        → (r.table ≡ board.now.table_id) × (r.worker ≡ k)) }
    ensures own { (root.new.table_id ≡ root.old.table_id) × (root.new.id ≡ root.old.id) }
    ensures root { (works : List Work) × AreWorksOf seats.items works
        × (root.new.me ≡ (keeper board.now.key workers workers (map gone works), [])) }
{
    let mut seats = seats;
    while let Some(seat) = seats.pop() {
        take_in(board, root, seat.into_work());
    }
    seats.destroy_empty();
}
