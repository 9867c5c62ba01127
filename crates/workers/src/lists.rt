//! Lists of tasks, and of the seats and workers in them.

ghost use Rattle.std.specs.Prelude.{◌≡◌, ◌≤◌, [], length, map, vec_capacity};
ghost use Rattle.std.specs.List.{AllByRecursion};
ghost use Rattle.workers.specs.Tasks.{IsReady, tasks_for};

use crate::task::Task;
use address_map::AddressMap;
use bsp_machine::CountedWorker;
use std::collections::VecDeque;
use superstep_instructions::Code;
use turnstile::{RowSeat, Turnstile};

/// A task for each worker, at the seat of its place.
pub(crate) fn tasks_of<'a, M: AddressMap>(
    turnstile: &'a Turnstile,
    code: &'a Code,
    map: &'a M,
    bound: u32,
    seats: Vec<RowSeat>,
    workers: Vec<CountedWorker>,
    tasks: Vec<Task<'a, M>>,
) -> Vec<Task<'a, M>>
    requires ready { AllByRecursion (IsReady M.shape) (tasks_for (record {
      turnstile = turnstile.now;
      code = code.now;
      map = map.now;
      bound = bound;
    }) seats.items workers.items) }
    requires count { length workers.items ≡ length seats.items }
    requires room { (tasks.items ≡ []) × (length seats.items ≤ vec_capacity tasks) }
    ensures { result.items ≡ tasks_for (record {
      turnstile = turnstile.entry.now;
      code = code.entry.now;
      map = map.entry.now;
      bound = bound;
    }) seats.items
        workers.items }
{
    let mut tasks = tasks;
    let mut workers = VecDeque::from(workers);
    'seats: for seat in seats {
        let worker = workers.pop_front().unwrap();
        tasks.push_reserved(Task::new(turnstile, code, map, bound, seat, worker));
    }
    tasks
}

/// The seats and the workers that come back, each by itself.
pub(crate) fn unzipped(
    played: Vec<(RowSeat, CountedWorker)>,
    seats: Vec<RowSeat>,
    workers: Vec<CountedWorker>,
) -> (Vec<RowSeat>, Vec<CountedWorker>)
    requires seats { (seats.items ≡ []) × (length played.items ≤ vec_capacity seats) }
    requires workers { (workers.items ≡ []) × (length played.items ≤ vec_capacity workers) }
    ensures seats { result.0.items ≡ map (λ y. y.0) played.items }
    ensures workers { result.1.items ≡ map (λ y. y.1) played.items }
{
    let mut seats = seats;
    let mut workers = workers;
    'played: for (seat, worker) in played {
        seats.push_reserved(seat);
        workers.push_reserved(worker);
    }
    (seats, workers)
}

/// The seats of tasks that nobody began.
pub(crate) fn unused<'a, M: AddressMap>(
    tasks: Vec<Task<'a, M>>,
    seats: Vec<RowSeat>,
) -> Vec<RowSeat>
    requires room { (seats.items ≡ []) × (length tasks.items ≤ vec_capacity seats) }
    ensures { result.items ≡ map (λ x. x.seat) tasks.entry.items }
{
    let mut seats = seats;
    'tasks: for task in tasks {
        seats.push_reserved(task.into_seat());
    }
    seats
}
