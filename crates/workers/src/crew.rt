//! Threads that work tasks off, all at one go.

ghost use Rattle.std.specs.Prelude.{◌≡◌, ◌≤◌, ◌<◌, [], length, map, filter_map, IfOk, IfErr, vec_capacity};
ghost use Rattle.turnstile.specs.declared.start.told.Told.TheVariants.{Nothing};
ghost use Rattle.turnstile.specs.Runners.{AreNewRunners};
ghost use Rattle.workers.specs.Crews.{Pairwise};

use crate::deed::Deed;
use crate::gates::Gate;
use crate::report::{Report, ReportOf};
use crate::threads::{Ended, in_threads};
use bsp_machine::CountedWorker;
use std::alloc::{AllocError, Global};
use std::sync::Wait;
use std::thread::{PromisedHandle, Threads};
use turnstile::{RowSeat, Runner, StartLine, Starter};

/// Who starts the threads and who runs in them, with room for all that they give back. All of this is taken before any thread starts:
/// from then on memory is asked for nothing but the starts.
#[derive(Drop)]
pub(crate) struct Crew<T: Deed> {
    pub(crate) line: StartLine<T>,
    starter: Starter<T>,
    runners: Vec<Runner<T>>,
    handles: Vec<PromisedHandle<Report<T>, ReportOf<T>>>,
    reports: Vec<Report<T>>,
    ended: Vec<Runner<T>>,
    played: Vec<(RowSeat, CountedWorker)>,
    ghost starter_is: { (starter.table ≡ line.table) × (starter.said ≡ Nothing) },
    ghost runners_are: { AreNewRunners line.table line.runners runners.items },
    ghost handles_room: { (handles.items ≡ []) × (line.runners ≤ vec_capacity handles) },
    ghost reports_room: { (reports.items ≡ []) × (line.runners ≤ vec_capacity reports) },
    ghost ended_room: { (ended.items ≡ []) × (line.runners ≤ vec_capacity ended) },
    ghost played_room: { (played.items ≡ []) × (line.runners ≤ vec_capacity played) },
}

// The runners, and what those gave back that played, in order.
fn apart<T>(
    reports: Vec<Report<T>>,
    ended: Vec<Runner<T>>,
    played: Vec<(RowSeat, CountedWorker)>,
) -> (Vec<Runner<T>>, Vec<(RowSeat, CountedWorker)>)
    requires ended { (ended.items ≡ []) × (length reports.items ≤ vec_capacity ended) }
    requires played { (played.items ≡ []) × (length reports.items ≤ vec_capacity played) }
    ensures ended { result.0.items ≡ map (λ r. r.runner) reports.items }
    ensures played { result.1.items ≡ filter_map (λ r. r.played) reports.items }
{
    let mut ended = ended;
    let mut all = played;
    'reports: for report in reports {
        let Report { runner, played } = report;
        ended.push_reserved(runner);
        match played {
            None => {}
            Some(one) => all.push_reserved(one),
        }
    }
    (ended, all)
}

impl<T: Deed> Crew<T> {
    /// For so many tasks. The only error is that memory is refused.
    pub(crate) fn new(alloc: Global, tasks: usize) -> Result<Crew<T>, AllocError>
        requires { (0 < tasks) × (tasks ≤ 32) }
        ensures { IfOk result (λ crew. crew.line.runners ≡ tasks) }
    {
        let handles = Vec::with_capacity(alloc, tasks)?;
        let reports = Vec::with_capacity(alloc, tasks)?;
        let ended = Vec::with_capacity(alloc, tasks)?;
        let played = Vec::with_capacity(alloc, tasks)?;
        let (line, starter, runners) = StartLine::new(alloc, tasks)?;
        Ok(Crew {
            line,
            starter,
            runners,
            handles,
            reports,
            ended,
            played,
        })
    }

    /// Works all tasks off, each in a thread of its own, in any order and at the same time, and gives what comes of each, in the order
    /// of the tasks. Where the start of a thread is refused none of them begins, and the tasks come back.
    pub(crate) fn work_all<R: Threads + Wait + Sync, G: Gate + Sync>(
        self,
        rt: &R,
        tasks: Vec<T>,
        gate: &G,
    ) -> Result<Vec<(RowSeat, CountedWorker)>, Vec<T>>
        requires count { length tasks.items ≡ self.line.runners }
        ensures done { IfOk result (λ played. Pairwise T.done tasks.items played.items) }
        ensures refused { IfErr result (λ back. back.items ≡ tasks.items) }
    {
        let Crew {
            line,
            starter,
            runners,
            handles,
            reports,
            ended,
            played,
        } = self;
        let Ended {
            starter,
            reports,
            unsaid,
        } = in_threads(rt, &line, starter, runners, tasks, handles, reports, gate);
        let (ended, played) = apart(reports, ended, played);
        line.close(starter, ended);
        match unsaid {
            None => Ok(played),
            Some(tasks) => Err(tasks),
        }
    }
}
