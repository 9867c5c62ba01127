// Workers that cross, alone and in threads.
ghost use Rattle.std.specs.Prelude.{◌≡◌, ◌+◌, ◌++◌, ◌∷◌, [], All, vec_capacity};
ghost use Rattle.std.specs.Thread.{IsSync};
ghost use Rattle.turnstile.specs.Seats.{TurnstileShape, RowState, AreSeatsOf};
ghost use Rattle.thread_tests.specs.Tested.{SameOwners, MayPlay};

use std::process::Abort;
use std::sync::Wait;
use std::test::Fail;
use std::thread::{Threads, join};
use turnstile::{ColumnSeat, MAX_SIDE, RowSeat, Turnstile};

const PHASES: u64 = 1000;

#[test]
fn one_worker_receives_its_own_row(rt: HostRuntime) -> Result<(), Fail> {
    let (turnstile, mut seats) = Turnstile::new(rt.alloc(), 1, 2)?;
    let mut seat = seats.take_last();
    assert_eq!(rt; seat.fill(0, [1, 2, 3, 4], &[5, 6]), true);
    assert_eq!(rt; seat.fill(0, [9, 9, 9, 9], &[1, 2, 3]), false, "too long");
    let column = turnstile.cross(&rt, seat);
    assert_eq!(rt; column.header(0), [1, 2, 3, 4]);
    assert_eq!(rt; column.from(0), [5, 6].as_slice());
    let seat = turnstile.turn(&rt, column);
    let column = turnstile.cross(&rt, seat);
    assert_eq!(rt; column.header(0), [0, 0, 0, 0]);
    assert_eq!(rt; column.from(0).len(), 0);
    let seat = turnstile.turn(&rt, column);
    assert_eq!(rt; seat.phase(), 2);
    seats.push_reserved(seat);
    turnstile.close(seats);
    Ok(())
}

// Fills the row of the worker `me`: for each worker the phase, who sends and who receives.
fn fill_row<R: Abort>(rt: &R, seat: &mut RowSeat, workers: usize, phase: u64, me: usize)
    requires workers { seat.old.workers ≡ workers }
    ensures same { seat.new ≡ record seat.old { row = seat.new.row } }
{
    for to in 0..workers {
        let filled = seat.fill(to, [phase, 0, 0, 0], &[phase, me as u64, to as u64]);
        assert!(rt; filled);
    }
}

// The column of the worker `me` shows what each worker sent to it.
fn read_column<R: Abort>(rt: &R, column: &ColumnSeat, workers: usize, phase: u64, me: usize)
    requires workers { column.now.workers ≡ workers }
{
    for from in 0..workers {
        let words = [phase, from as u64, me as u64];
        assert!(rt; column.from(from) == words.as_slice());
        assert!(rt; column.header(from) == [phase, 0, 0, 0]);
    }
}

// Crosses so often, and compares each column.
fn play<R: Wait + Abort>(
    rt: &R,
    turnstile: &Turnstile,
    seat: RowSeat,
    workers: usize,
    me: usize,
) -> RowSeat
    requires seat { MayPlay turnstile.now seat }
    requires workers { turnstile.now.workers ≡ workers }
    ensures seat { (result.table ≡ seat.table) × (result.worker ≡ seat.worker) }
{
    let mut seat = seat;
    for phase in 0..PHASES {
        fill_row(rt, &mut seat, workers, phase, me);
        let column = turnstile.cross(rt, seat);
        read_column(rt, &column, workers, phase, me);
        seat = turnstile.turn(rt, column);
    }
    seat
}

// Each of these workers plays in a thread of its own.
fn play_all<R: Threads + Wait + Abort + Sync>(
    rt: &R,
    turnstile: &Turnstile,
    seats: Vec<RowSeat>,
    workers: usize,
) -> Vec<RowSeat>
    requires sync { IsSync R.row }
    requires seats { All (MayPlay turnstile.now) seats.items }
    requires workers { turnstile.now.workers ≡ workers }
    ensures seats { SameOwners seats.items result.items }
    ensures capacity { vec_capacity result ≡ vec_capacity seats }
{
    let mut seats = seats;
    let Some(seat) = seats.pop() else {
        return seats;
    };
    let me = seats.len();
    let (mut seats, seat) = join(
        rt,
        || -> Vec<RowSeat>
            requires { IsSync R.row × All (MayPlay turnstile.now) seats.items × (turnstile.now.workers ≡ workers) }
            ensures { SameOwners seats.items result.items × (vec_capacity result ≡ vec_capacity seats) }
        { play_all(rt, turnstile, seats, workers) },
        || -> RowSeat
            requires { MayPlay turnstile.now seat × (turnstile.now.workers ≡ workers) }
            ensures { (result.table ≡ seat.table) × (result.worker ≡ seat.worker) }
        { play(rt, turnstile, seat, workers, me) },
    );
    seats.push_reserved(seat);
    seats
}

fn cross_often<R: Threads + Wait + Abort + Sync>(
    rt: &R,
    turnstile: Turnstile,
    seats: Vec<RowSeat>,
    workers: usize,
)
    requires sync { IsSync R.row }
    requires seats { AreSeatsOf turnstile seats.items × All (MayPlay turnstile) seats.items
        × (turnstile.workers ≡ workers) }
{
    let seats = play_all(rt, &turnstile, seats, workers);
    turnstile.close(seats);
}

#[test]
fn three_workers_receive_what_was_sent(rt: HostRuntime) -> Result<(), Fail> {
    let (turnstile, seats) = Turnstile::new(rt.alloc(), 3, 3)?;
    cross_often(&rt, turnstile, seats, 3);
    Ok(())
}

#[test]
fn most_workers_receive_what_was_sent(rt: HostRuntime) -> Result<(), Fail> {
    let (turnstile, seats) = Turnstile::new(rt.alloc(), MAX_SIDE, 3)?;
    cross_often(&rt, turnstile, seats, MAX_SIDE);
    Ok(())
}
