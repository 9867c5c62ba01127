//! The time and the work of a run.

ghost use Rattle.std.specs.Prelude.{◌≡◌, ◌+◌, ◌≤◌, ◌*◌, ◌^◌, OnOk};

use std::alloc::AllocError;

/// How many statements ran (time), and for each of them one for each processor that executed it (work).
#[derive(Clone, Copy)]
pub struct TimeAndWork {
    pub time: u32,
    pub work: u64,
    ghost fits: { work ≤ time * 2 ^ 32 },
}

impl TimeAndWork {
    /// Nothing has run.
    pub(crate) fn new() -> TimeAndWork
        ensures time { result.time ≡ 0 }
        ensures work { result.work ≡ 0 }
    {
        TimeAndWork { time: 0, work: 0 }
    }

    /// One statement more, of so many processors. The error is that no number is left for its time.
    pub(crate) fn add(&mut self, processors: u32) -> Result<(), AllocError>
        ensures time { OnOk result (self.new.time ≡ self.old.time + 1) }
        ensures work { OnOk result (self.new.work ≡ self.old.work + processors) }
    {
        if self.time == u32::MAX {
            return Err(AllocError);
        }
        *self = TimeAndWork {
            time: self.time + 1,
            work: self.work + u64::from(processors),
        };
        Ok(())
    }
}
