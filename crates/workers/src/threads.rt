//! The threads of a crew.

ghost use Rattle.std.specs.Prelude.{◌≡◌, ◌≤◌, [], IfOk, length, map, vec_capacity};
ghost use Rattle.turnstile.specs.declared.start.told.Told.TheVariants.{Nothing};
ghost use Rattle.turnstile.specs.Runners.{AreNewRunners};
ghost use Rattle.workers.specs.Reports.{IsReportOf};
ghost use Rattle.workers.specs.Crews.{runner_of, AreStarted, AreReports, IsSaid, IsEnded};

use crate::deed::Deed;
use crate::gates::Gate;
use crate::job::{Job, play};
use crate::report::{Report, ReportOf};
use std::alloc::AllocError;
use std::snapshot::Snapshot;
use std::sync::Wait;
use std::thread;
use std::thread::{PromisedHandle, Scope, Threads};
use turnstile::{Runner, StartLine, Starter};

/// After the last join. The tasks are there where go wasn't said.
#[derive(Drop)]
pub(crate) struct Ended<T> {
    pub(crate) starter: Starter<T>,
    pub(crate) reports: Vec<Report<T>>,
    pub(crate) unsaid: Option<Vec<T>>,
}

// Starts a thread of the scope for a runner.
fn start<'s, 'l: 's, E, R: Threads + Wait + Sync, T: Deed, G: Gate + Sync>(
    scope: &Scope<'s, E>,
    rt: &'s R,
    job: Job<'l, T>,
    gate: &'s G,
) -> Result<PromisedHandle<Report<T>, ReportOf<T>>, AllocError>
    ensures { IfOk result (λ h. runner_of h ≡ job.entry.runner) }
{
    Ok(scope.spawn_with(ReportOf(Snapshot::of(&job.runner)), move || {
        play(rt, job, gate)
    })?)
}

// Starts a thread for each runner, in order, up to the first that is refused: whether none was.
fn start_all<'s, 'l: 's, E, R: Threads + Wait + Sync, T: Deed, G: Gate + Sync>(
    scope: &Scope<'s, E>,
    rt: &'s R,
    line: &'l StartLine<T>,
    runners: Vec<Runner<T>>,
    gate: &'s G,
    handles: Vec<PromisedHandle<Report<T>, ReportOf<T>>>,
) -> (Vec<PromisedHandle<Report<T>, ReportOf<T>>>, bool)
    requires runners { AreNewRunners line.now.table line.now.runners runners.items }
    requires room { (handles.items ≡ []) × (line.now.runners ≤ vec_capacity handles) }
    ensures { AreStarted runners.items result.0.items result.1 }
{
    let mut handles = handles;
    'runners: for runner in runners {
        match start(scope, rt, Job::new(line, runner), gate) {
            Ok(handle) => handles.push_reserved(handle),
            Err(_) => return (handles, false),
        }
    }
    (handles, true)
}

// Joins all threads, in order.
fn join_all<R: Threads, T: Deed>(
    rt: &R,
    handles: Vec<PromisedHandle<Report<T>, ReportOf<T>>>,
    reports: Vec<Report<T>>,
) -> Vec<Report<T>>
    requires room { (reports.items ≡ []) × (length handles.items ≤ vec_capacity reports) }
    ensures { AreReports T.done (map runner_of handles.items) result.items }
{
    let mut reports = reports;
    'handles: for handle in handles {
        reports.push_reserved(handle.join(rt));
    }
    reports
}

// Says go with the tasks, or stop, and gives the tasks back.
fn say<T>(
    line: &StartLine<T>,
    starter: Starter<T>,
    tasks: Vec<T>,
    go: bool,
) -> (Starter<T>, Option<Vec<T>>)
    requires own { (starter.table ≡ line.now.table) × (starter.said ≡ Nothing) }
    requires count { length tasks.items ≡ line.now.runners }
    ensures table { result.0.table ≡ line.now.table }
    ensures said { IsSaid go tasks.items result.0.said result.1 }
{
    let mut starter = starter;
    if go {
        starter.say(line, Some(tasks));
        (starter, None)
    } else {
        starter.say(line, None);
        (starter, Some(tasks))
    }
}

// Starts all threads, tells them to go, and joins them. Where a start is refused it tells those that run to stop.
fn command<'s, 'l: 's, E, R: Threads + Wait + Sync, T: Deed, G: Gate + Sync>(
    scope: &Scope<'s, E>,
    rt: &'s R,
    line: &'l StartLine<T>,
    starter: Starter<T>,
    runners: Vec<Runner<T>>,
    tasks: Vec<T>,
    handles: Vec<PromisedHandle<Report<T>, ReportOf<T>>>,
    reports: Vec<Report<T>>,
    gate: &'s G,
) -> Ended<T>
    requires own { (starter.table ≡ line.now.table) × (starter.said ≡ Nothing) }
    requires runners { AreNewRunners line.now.table line.now.runners runners.items }
    requires count { length tasks.items ≡ line.now.runners }
    requires handles { (handles.items ≡ []) × (line.now.runners ≤ vec_capacity handles) }
    requires reports { (reports.items ≡ []) × (line.now.runners ≤ vec_capacity reports) }
    ensures { IsEnded T.done line.now tasks.items result.starter result.reports.items result.unsaid }
{
    let (handles, all) = start_all(scope, rt, line, runners, gate, handles);
    let (starter, unsaid) = say(line, starter, tasks, all);
    let reports = join_all(rt, handles, reports);
    Ended {
        starter,
        reports,
        unsaid,
    }
}

/// The whole work of a crew, in threads of a scope.
pub(crate) fn in_threads<'l, R: Threads + Wait + Sync, T: Deed, G: Gate + Sync>(
    rt: &R,
    line: &'l StartLine<T>,
    starter: Starter<T>,
    runners: Vec<Runner<T>>,
    tasks: Vec<T>,
    handles: Vec<PromisedHandle<Report<T>, ReportOf<T>>>,
    reports: Vec<Report<T>>,
    gate: &G,
) -> Ended<T>
    requires own { (starter.table ≡ line.now.table) × (starter.said ≡ Nothing) }
    requires runners { AreNewRunners line.now.table line.now.runners runners.items }
    requires count { length tasks.items ≡ line.now.runners }
    requires handles { (handles.items ≡ []) × (line.now.runners ≤ vec_capacity handles) }
    requires reports { (reports.items ≡ []) × (line.now.runners ≤ vec_capacity reports) }
    ensures { IsEnded T.done line.now tasks.items result.starter result.reports.items result.unsaid }
{
    thread::scope(
        thread::scope_env(),
        rt,
        |scope| -> Ended<T>
            requires { (starter.table ≡ line.now.table) × (starter.said ≡ Nothing)
                × AreNewRunners line.now.table line.now.runners runners.items
                × (length tasks.items ≡ line.now.runners)
                × (handles.items ≡ []) × (line.now.runners ≤ vec_capacity handles)
                × (reports.items ≡ []) × (line.now.runners ≤ vec_capacity reports) }
            ensures { IsEnded T.done line.entry.now tasks.items result.starter result.reports.items result.unsaid }
        {
            command(
                scope, rt, line, starter, runners, tasks, handles, reports, gate,
            )
        },
    )
}
