//! Room for a run in threads.

ghost use Rattle.std.specs.Prelude.{◌≡◌, ◌<◌, ◌≤◌, [], IfOk, vec_capacity};

use crate::crew::Crew;
use crate::task::Task;
use address_map::AddressMap;
use bsp_machine::CountedWorker;
use std::alloc::{AllocError, Global};
use turnstile::RowSeat;

/// The crew of a run, and room for its tasks and for the seats and workers that come back.
#[derive(Drop)]
pub(crate) struct RunRoom<'a, M: AddressMap + Sync> {
    pub(crate) crew: Crew<Task<'a, M>>,
    pub(crate) tasks: Vec<Task<'a, M>>,
    pub(crate) seats: Vec<RowSeat>,
    pub(crate) workers: Vec<CountedWorker>,
    ghost tasks_room: { (tasks.items ≡ []) × (crew.line.runners ≤ vec_capacity tasks) },
    ghost seats_room: { (seats.items ≡ []) × (crew.line.runners ≤ vec_capacity seats) },
    ghost workers_room: { (workers.items ≡ []) × (crew.line.runners ≤ vec_capacity workers) },
}

impl<'a, M: AddressMap + Sync> RunRoom<'a, M> {
    /// For so many workers. The only error is that memory is refused.
    pub(crate) fn new(alloc: Global, workers: usize) -> Result<RunRoom<'a, M>, AllocError>
        requires { (0 < workers) × (workers ≤ 32) }
        ensures { IfOk result (λ room. room.crew.line.runners ≡ workers) }
    {
        let tasks = Vec::with_capacity(alloc, workers)?;
        let seats = Vec::with_capacity(alloc, workers)?;
        let ended = Vec::with_capacity(alloc, workers)?;
        let crew = Crew::new(alloc, workers)?;
        Ok(RunRoom {
            crew,
            tasks,
            seats,
            workers: ended,
        })
    }
}
