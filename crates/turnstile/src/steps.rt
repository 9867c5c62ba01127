// What a worker does at the table.
ghost use Rattle.std.specs.Prelude.{◌≡◌, ℕ, ◌+◌, ◌*◌, ◌%◌, ◌^◌, ◌<◌, ◌≤◌, List, [], ◌∷◌, ◌++◌, length, map, Some, None, IsTrue, false};
ghost use Rattle.std.specs.Prelude.{Option};
ghost use Rattle.exchange_arena.specs.Piece.{PieceState};
ghost use Rattle.atomic_table.specs.Table.{rest};
ghost use Rattle.turnstile.specs.declared.views.Kind.TheVariants.{Seated};
ghost use Rattle.turnstile.specs.Turns.{message, slot, phase, saw, seated, Got, letters, finished, departed};
ghost use Rattle.std.specs.Prelude.{take};
ghost use Rattle.std.specs.VecDeque.{deque_capacity};
ghost use Rattle.turnstile.specs.Loads.{Ready, loaded, emptied};
ghost use Rattle.turnstile.specs.Works.{Rested, Seeing, IsSame, done, before, rows_of, columns_of};

use crate::blocks::Blocks;
use crate::letter::Letter;
use crate::plays::{Depart, Finish, Look, Turns};
use crate::views::View;
use crate::work::{Chair, Work};
use atomic_table::Shared;
use std::hint::spin_loop;
use std::sync::Wait;

pub(crate) type Board = Shared<Option<Letter>, View, Blocks, Turns>;

// A sleep compares the low 32 bits of a word.
const LOW: u64 = 0xffff_ffff;

// The slot of the piece (i, j) of a phase.
fn slot_at(workers: usize, round: u64, i: usize, j: usize) -> usize
    requires { (workers ≤ 32) × (i < workers) × (j < workers) }
    ensures { result ≡ slot workers round i j }
{
    ((round % 2) as usize * workers + i) * workers + j
}

// Puts a piece each into the first two slots, which go behind the others.
fn lay_two(board: &Board, chair: &mut Chair, first: usize, second: usize, x: Letter, y: Letter)
    requires { (chair.old.table_id ≡ board.now.table_id)
        × (chair.old.me.1 ≡ (first, None) ∷ (second, None) ∷ rest (rest chair.old.me.1)) }
    ensures seat { (chair.new.table_id ≡ chair.old.table_id) × (chair.new.id ≡ chair.old.id) }
    ensures slots { chair.new.me ≡ (
      chair.old.me.0,
      rest (rest chair.old.me.1) ++ (first, Some x)
          ∷ (second, Some y) ∷ [],
    ) }
{
    match board.exchange(chair, first, Some(x)) {
        None => {}
        Some(_) => unreachable!(),
    }
    chair.turn();
    match board.exchange(chair, second, Some(y)) {
        None => {}
        Some(_) => unreachable!(),
    }
    chair.turn();
}

// Takes the pieces out of the first two slots, which go behind the others.
fn draw_two(board: &Board, chair: &mut Chair, first: usize, second: usize) -> (Letter, Letter)
    requires { (chair.old.table_id ≡ board.now.table_id) × ((x : PieceState) × (y : PieceState)
        × (chair.old.me.1 ≡ (first, Some x) ∷ (second, Some y) ∷ rest (rest chair.old.me.1))) }
    ensures seat { (chair.new.table_id ≡ chair.old.table_id) × (chair.new.id ≡ chair.old.id) }
    ensures pieces { chair.old.me.1 ≡ (first, Some result.0) ∷ (second, Some result.1) ∷ rest (rest chair.old.me.1) }
    ensures slots { chair.new.me ≡ (
      chair.old.me.0,
      rest (rest chair.old.me.1) ++ (first, None) ∷ (second, None)
          ∷ [],
    ) }
{
    let Some(x) = board.exchange(chair, first, None) else {
        unreachable!()
    };
    chair.turn();
    let Some(y) = board.exchange(chair, second, None) else {
        unreachable!()
    };
    chair.turn();
    (x, y)
}

// One look at a worker. It says whether that worker has come as far.
fn look(board: &Board, chair: &mut Chair, i: usize, round: u64) -> u64
    requires seat { (chair.old.table_id ≡ board.now.table_id) × (chair.old.me.0.kind ≡ Seated)
        × (round ≡ phase chair.old.me.0.mine) }
    requires unseen { (i < board.now.key.side) × (i < board.now.table_id.words) × (saw chair.old.me.0.mine i ≡ false) }
    ensures seat { (chair.new.table_id ≡ chair.old.table_id) × (chair.new.id ≡ chair.old.id) }
    ensures early { result < round → chair.new.me ≡ chair.old.me }
    ensures found { round ≤ result → Got chair.old.me i chair.new.me }
{
    board.load::<Look>(chair, i)
}

// Looks at a worker until it has come as far: so often at once, and then after each sleep.
fn look_until<R: Wait>(rt: &R, board: &Board, chair: &mut Chair, i: usize, round: u64, looks: u32)
    requires seat { (chair.old.table_id ≡ board.now.table_id) × (chair.old.me.0.kind ≡ Seated)
        × (round ≡ phase chair.old.me.0.mine) }
    requires unseen { (i < board.now.key.side) × (i < board.now.table_id.words) × (saw chair.old.me.0.mine i ≡ false) }
    ensures seat { (chair.new.table_id ≡ chair.old.table_id) × (chair.new.id ≡ chair.old.id) }
    ensures found { Got chair.old.me i chair.new.me }
{
    let mut left = looks;
    for _ in rt.forever() {
        let count = look(board, chair, i, round);
        if round <= count {
            return;
        }
        if left == 0 {
            board.park(rt, i, (count & LOW) as u32);
        } else {
            left -= 1;
            spin_loop();
        }
    }
    unreachable!()
}

// Gives back all that the seat holds, and tells that its phase has begun.
fn finish(board: &Board, chair: &mut Chair, worker: usize)
    requires seat { (chair.old.table_id ≡ board.now.table_id) × (worker ≡ chair.old.me.0.mine.at)
        × (worker < board.now.table_id.words) }
    requires few { phase chair.old.me.0.mine < 2 ^ 63 }
    requires ready { (xs : List PieceState) × (ys : List PieceState) × Ready board.now.key.side chair.old.me xs ys }
    ensures seat { (chair.new.table_id ≡ chair.old.table_id) × (chair.new.id ≡ chair.old.id) }
    ensures finished { chair.new.me ≡ (seated (finished chair.old.me.0.mine (letters chair.old.me.1)), []) }
{
    board.fetch_add::<Finish>(chair, worker, 1);
}

// Gives back all that the seat holds, for good.
pub(crate) fn depart(board: &Board, chair: &mut Chair)
    requires seat { (chair.old.table_id ≡ board.now.table_id) × (0 < board.now.table_id.words) }
    requires ready { (xs : List PieceState) × (ys : List PieceState) × Ready board.now.key.side chair.old.me xs ys }
    ensures seat { (chair.new.table_id ≡ chair.old.table_id) × (chair.new.id ≡ chair.old.id) }
    ensures departed { chair.new.me ≡ (seated (departed chair.old.me.0.mine), []) }
{
    board.load::<Depart>(chair, 0);
}

// Takes the pieces that a worker gave, which was looked at.
fn take_two(board: &Board, work: &mut Work, i: usize) -> (Letter, Letter)
    requires seat { work.old.chair.table_id ≡ board.now.table_id }
    requires few { (work.old.workers ≤ 32) × (work.old.worker < work.old.workers) × (i < work.old.workers)
        × (work.old.round ≤ 2 ^ 63) }
    requires found { (x : PieceState) × (y : PieceState)
        × (work.old.chair.me.1 ≡ (slot work.old.workers (work.old.round + 1) work.old.worker i, Some x)
        ∷ (slot work.old.workers work.old.round i work.old.worker, Some y) ∷ rest (rest work.old.chair.me.1)) }
    ensures same { IsSame work.old work.new × (work.new.row ≡ work.old.row) × (work.new.column ≡ work.old.column) }
    ensures pieces { work.old.chair.me.1
        ≡ (slot work.old.workers (work.old.round + 1) work.old.worker i, Some result.0)
        ∷ (slot work.old.workers work.old.round i work.old.worker, Some result.1) ∷ rest (rest work.old.chair.me.1) }
    ensures slots { work.new.chair.me ≡ (
      work.old.chair.me.0,
      rest (rest work.old.chair.me.1)
          ++ (slot work.old.workers (work.old.round + 1) work.old.worker i, None)
          ∷ (slot work.old.workers work.old.round i work.old.worker, None) ∷ [],
    ) }
{
    let first = slot_at(work.workers, work.round + 1, work.worker, i);
    let second = slot_at(work.workers, work.round, i, work.worker);
    draw_two(board, &mut work.chair, first, second)
}

// Sees the worker i, and takes what it gave.
fn see_until<R: Wait>(rt: &R, board: &Board, work: &mut Work, i: usize, looks: u32)
    requires seat { (work.old.chair.table_id ≡ board.now.table_id) × (board.now.key.side ≡ work.old.workers)
        × (i < work.old.workers) × (work.old.round ≤ 2 ^ 63) }
    requires seeing { Seeing i work.old }
    ensures same { IsSame work.old work.new × (before work.new ≡ before work.old)
        × (rows_of work.new ≡ rows_of work.old) × ((done work.new).blocks ≡ (done work.old).blocks) }
    ensures seeing { Seeing (i + 1) work.new }
{
    look_until(rt, board, &mut work.chair, i, work.round, looks);
    let (x, y) = take_two(board, work, i);
    work.row.push_back_reserved(x);
    work.column.push_back_reserved(y);
}

// The same before the first phase, where each worker has come as far.
pub(crate) fn see_now(board: &Board, work: &mut Work, i: usize)
    requires seat { (work.old.chair.table_id ≡ board.now.table_id) × (board.now.key.side ≡ work.old.workers)
        × (i < work.old.workers) × (work.old.round ≡ 0) }
    requires seeing { Seeing i work.old }
    ensures same { IsSame work.old work.new × (before work.new ≡ before work.old)
        × (rows_of work.new ≡ rows_of work.old) × ((done work.new).blocks ≡ (done work.old).blocks) }
    ensures seeing { Seeing (i + 1) work.new }
{
    look(board, &mut work.chair, i, work.round);
    let (x, y) = take_two(board, work, i);
    work.row.push_back_reserved(x);
    work.column.push_back_reserved(y);
}

// Puts the first piece of the row, and that of the column, into their slots.
fn lay_one(board: &Board, work: &mut Work, j: usize)
    requires seat { work.old.chair.table_id ≡ board.now.table_id }
    requires few { (work.old.workers ≤ 32) × (work.old.worker < work.old.workers) × (j < work.old.workers)
        × (work.old.round ≤ 2 ^ 63) }
    requires pieces { (0 < length work.old.row.items) × (0 < length work.old.column.items) }
    requires empty { work.old.chair.me.1 ≡ (slot work.old.workers (work.old.round + 1) work.old.worker j, None)
        ∷ (slot work.old.workers (work.old.round + 1 + 1) j work.old.worker, None) ∷ rest (rest work.old.chair.me.1) }
    ensures same { IsSame work.old work.new × (deque_capacity work.new.row ≡ deque_capacity work.old.row)
        × (deque_capacity work.new.column ≡ deque_capacity work.old.column) }
    ensures laid { (x : PieceState) × (y : PieceState) × (work.old.row.items ≡ x ∷ work.new.row.items)
        × (work.old.column.items ≡ y ∷ work.new.column.items)
        × (work.new.chair.me ≡ (
          work.old.chair.me.0,
          rest (rest work.old.chair.me.1)
              ++ (slot work.old.workers (work.old.round + 1) work.old.worker j, Some x)
              ∷ (slot work.old.workers (work.old.round + 1 + 1) j work.old.worker, Some y) ∷ [],
        )) }
{
    let first = slot_at(work.workers, work.round + 1, work.worker, j);
    let second = slot_at(work.workers, work.round + 2, j, work.worker);
    let x = work.row.pop_front().unwrap();
    let y = work.column.pop_front().unwrap();
    lay_two(board, &mut work.chair, first, second, x, y);
}

// Puts all pieces into their slots.
pub(crate) fn lay_all(board: &Board, work: &mut Work)
    requires seat { work.old.chair.table_id ≡ board.now.table_id }
    requires rested { Rested work.old }
    ensures same { IsSame work.old work.new × (deque_capacity work.new.row ≡ deque_capacity work.old.row)
        × (deque_capacity work.new.column ≡ deque_capacity work.old.column) }
    ensures laid { (work.new.row.items ≡ []) × (work.new.column.items ≡ [])
        × (work.new.chair.me
        ≡ (work.old.chair.me.0, loaded work.old.workers work.old.worker (work.old.round + 1) 0 work.old.row.items work.old.column.items)) }
{
    let workers = work.workers;
    for j in 0..workers {
        lay_one(board, work, j);
    }
}

// Sees every worker, and takes what each gave.
fn see_all<R: Wait>(rt: &R, board: &Board, work: &mut Work, looks: u32)
    requires seat { (work.old.chair.table_id ≡ board.now.table_id) × (board.now.key.side ≡ work.old.workers)
        × (work.old.round ≤ 2 ^ 63) }
    requires seeing { Seeing 0 work.old }
    ensures same { IsSame work.old work.new × (before work.new ≡ before work.old)
        × (rows_of work.new ≡ rows_of work.old) × ((done work.new).blocks ≡ (done work.old).blocks) }
    ensures seeing { Seeing work.old.workers work.new }
{
    let workers = work.workers;
    for i in 0..workers {
        see_until(rt, board, work, i, looks);
    }
}

/// One crossing: the row is handed over, and the column of the same phase is there. A worker is looked at so often before a sleep.
pub(crate) fn pass<R: Wait>(rt: &R, board: &Board, work: &mut Work, looks: u32)
    requires seat { (work.old.chair.table_id ≡ board.now.table_id) × (board.now.key.side ≡ work.old.workers) }
    requires few { work.old.round < 2 ^ 63 }
    requires rested { Rested work.old }
    ensures same { (work.new.chair.table_id ≡ work.old.chair.table_id) × (work.new.chair.id ≡ work.old.chair.id)
        × (work.new.worker ≡ work.old.worker) × (work.new.workers ≡ work.old.workers)
        × (work.new.round ≡ work.old.round + 1) }
    ensures blocks { (done work.new).blocks ≡ (done work.old).blocks }
    ensures rested { Rested work.new }
    ensures sent { rows_of work.new ≡ rows_of work.old ++ map message work.old.row.items ∷ [] }
    ensures received { columns_of work.new ≡ columns_of work.old ++ map message work.new.column.items ∷ [] }
{
    lay_all(board, work);
    finish(board, &mut work.chair, work.worker);
    work.round += 1;
    board.wake_all(work.worker);
    see_all(rt, board, work, looks);
}
