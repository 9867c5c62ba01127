//! What a thread does.

ghost use Rattle.std.specs.Prelude.{◌≡◌};
ghost use Rattle.turnstile.specs.declared.start.told.Told.TheVariants.{Nothing};
ghost use Rattle.workers.specs.Reports.{IsReportOf};

use crate::deed::Deed;
use crate::gates::Gate;
use crate::report::Report;
use std::sync::Wait;
use turnstile::{Runner, StartLine};

/// A runner that has heard nothing yet, and its line.
#[derive(Drop)]
pub(crate) struct Job<'l, T> {
    line: &'l StartLine<T>,
    pub(crate) runner: Runner<T>,
    ghost own: { runner.table ≡ line.now.table },
    ghost silent: { runner.heard ≡ Nothing },
}

impl<'l, T> Job<'l, T> {
    pub(crate) fn new(line: &'l StartLine<T>, runner: Runner<T>) -> Job<'l, T>
        requires own { runner.table ≡ line.now.table }
        requires silent { runner.heard ≡ Nothing }
        ensures { result.runner ≡ runner }
    {
        Job { line, runner }
    }
}

/// Waits for go, and then works the task off.
pub(crate) fn play<'l, R: Wait, T: Deed, G: Gate>(rt: &R, job: Job<'l, T>, gate: &G) -> Report<T>
    ensures { IsReportOf T.done job.entry.runner result.runner result.played }
{
    let Job { line, runner } = job;
    let mut runner = runner;
    let played = match runner.wait(line, rt) {
        None => None,
        Some(task) => Some(task.work_off(rt, gate)),
    };
    Report { runner, played }
}
