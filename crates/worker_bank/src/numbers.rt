//! Which processors a worker has.

ghost use Rattle.std.specs.Prelude.{◌≡◌, ℕ, ◌+◌, ◌*◌, ◌<◌, map};
ghost use Rattle.std.specs.List.{range_with_len};
ghost use Rattle.superstep_machine.specs.Setting.{Setting, workers as workers_of, processors};

/// How many processors a worker has in a range of that width: from its own number on every
/// `workers`-th.
pub fn how_many(workers: u32, worker: u32, width: u32) -> u32
    requires { worker < workers }
    // A worker's processors in a range are every p-th from its own number on, as many as are said.
    ensures { (t : Setting) → workers_of t ≡ workers →
        processors t worker width ≡ map (λ j. worker + workers * j) (range_with_len 0 result) }
{
    if width <= worker {
        0
    } else {
        (width - worker - 1) / workers + 1
    }
}
