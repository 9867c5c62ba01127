// Runners that wait at a start line, in threads.
ghost use Rattle.std.specs.Prelude.{◌≡◌, ◌<◌, ◌≤◌, ◌+◌, All, length, vec_capacity};
ghost use Rattle.std.specs.Thread.{IsSync};
ghost use Rattle.turnstile.specs.declared.start.told.Told.TheVariants.{Nothing, Stop, Go};
ghost use Rattle.turnstile.specs.Runners.{AreNewRunners};
ghost use Rattle.thread_tests.specs.Tested.{MayWait, SameRunners, HasHeard};

use std::alloc::Global;
use std::process::Abort;
use std::sync::Wait;
use std::test::Fail;
use std::thread::{Threads, join};
use turnstile::{MAX_SIDE, Runner, StartLine, Starter};

// The runner `me` waits, and compares what it hears.
fn hear<R: Wait + Abort>(
    rt: &R,
    line: &StartLine<u64>,
    runner: Runner<u64>,
    goes: bool,
    me: usize,
) -> Runner<u64>
    requires runner { MayWait line.now.table runner }
    ensures same { (result.table ≡ runner.table) × (result.at ≡ runner.at) }
    ensures heard { HasHeard result }
{
    let mut runner = runner;
    let item = runner.wait(line, rt);
    let wanted = if goes { Some(me as u64 ^ 255) } else { None };
    assert!(rt; item == wanted);
    runner
}

// Each of these runners waits in a thread of its own.
fn hear_all<R: Threads + Wait + Abort + Sync>(
    rt: &R,
    line: &StartLine<u64>,
    runners: Vec<Runner<u64>>,
    goes: bool,
) -> Vec<Runner<u64>>
    requires sync { IsSync R.row }
    requires runners { All (MayWait line.now.table) runners.items }
    ensures same { SameRunners runners.items result.items }
    ensures heard { All HasHeard result.items }
    ensures capacity { vec_capacity result ≡ vec_capacity runners }
{
    let mut runners = runners;
    let Some(runner) = runners.pop() else {
        return runners;
    };
    let me = runners.len();
    let (mut runners, runner) = join(
        rt,
        || -> Vec<Runner<u64>>
            requires { IsSync R.row × All (MayWait line.now.table) runners.items }
            ensures { SameRunners runners.items result.items × All HasHeard result.items
                × (vec_capacity result ≡ vec_capacity runners) }
        { hear_all(rt, line, runners, goes) },
        || -> Runner<u64>
            requires { MayWait line.now.table runner }
            ensures { (result.table ≡ runner.table) × (result.at ≡ runner.at) × HasHeard result }
        { hear(rt, line, runner, goes, me) },
    );
    runners.push_reserved(runner);
    runners
}

// All runners are told to go, each with its item.
fn go<R: Threads + Wait + Abort + Sync>(
    rt: &R,
    line: StartLine<u64>,
    starter: Starter<u64>,
    runners: Vec<Runner<u64>>,
    items: Vec<u64>,
)
    requires sync { IsSync R.row }
    requires starter { (starter.table ≡ line.table) × (starter.said ≡ Nothing) }
    requires runners { AreNewRunners line.table line.runners runners.items }
    requires items { length items.items ≡ line.runners }
{
    let shared = &line;
    let (runners, starter) = join(
        rt,
        || -> Vec<Runner<u64>>
            requires { IsSync R.row × AreNewRunners shared.now.table shared.now.runners runners.items }
            ensures { SameRunners runners.items result.items × All HasHeard result.items }
        { hear_all(rt, shared, runners, true) },
        || -> Starter<u64>
            requires { (starter.table ≡ shared.now.table) × (starter.said ≡ Nothing)
                × (length items.items ≡ shared.now.runners) }
            ensures { (result.table ≡ starter.table) × (result.said ≡ Go items.items) }
        {
            let mut starter = starter;
            starter.say(shared, Some(items));
            starter
        },
    );
    line.close(starter, runners);
}

// The runners that are left are told to stop.
fn stop<R: Threads + Wait + Abort + Sync>(
    rt: &R,
    line: StartLine<u64>,
    starter: Starter<u64>,
    runners: Vec<Runner<u64>>,
)
    requires sync { IsSync R.row }
    requires starter { (starter.table ≡ line.table) × (starter.said ≡ Nothing) }
    requires runners { All (MayWait line.table) runners.items }
{
    let shared = &line;
    let (runners, starter) = join(
        rt,
        || -> Vec<Runner<u64>>
            requires { IsSync R.row × All (MayWait shared.now.table) runners.items }
            ensures { SameRunners runners.items result.items × All HasHeard result.items }
        { hear_all(rt, shared, runners, false) },
        || -> Starter<u64>
            requires { (starter.table ≡ shared.now.table) × (starter.said ≡ Nothing) }
            ensures { (result.table ≡ starter.table) × (result.said ≡ Stop) }
        {
            let mut starter = starter;
            starter.say(shared, None);
            starter
        },
    );
    line.close(starter, runners);
}

fn go_with<R: Threads + Wait + Abort + Sync>(
    rt: &R,
    alloc: Global,
    count: usize,
) -> Result<(), Fail>
    requires sync { IsSync R.row }
    requires count { (0 < count) × (count ≤ 32) }
{
    let mut items = Vec::with_capacity(alloc, count)?;
    for at in 0..count {
        items.push_reserved(at as u64 ^ 255);
    }
    let (line, starter, runners) = StartLine::new(alloc, count)?;
    go(rt, line, starter, runners, items);
    Ok(())
}

fn stop_without<R: Threads + Wait + Abort + Sync>(
    rt: &R,
    alloc: Global,
    count: usize,
    dropped: usize,
) -> Result<(), Fail>
    requires sync { IsSync R.row }
    requires count { (0 < count) × (count ≤ 32) }
{
    let (line, starter, mut runners) = StartLine::new(alloc, count)?;
    for _ in 0..dropped {
        let _gone = runners.pop();
    }
    stop(rt, line, starter, runners);
    Ok(())
}

#[test]
fn runners_go_with_their_items(rt: HostRuntime) -> Result<(), Fail> {
    go_with(&rt, rt.alloc(), 1)?;
    go_with(&rt, rt.alloc(), 3)?;
    go_with(&rt, rt.alloc(), MAX_SIDE)
}

#[test]
fn runners_stop(rt: HostRuntime) -> Result<(), Fail> {
    stop_without(&rt, rt.alloc(), 1, 0)?;
    stop_without(&rt, rt.alloc(), 3, 0)?;
    stop_without(&rt, rt.alloc(), MAX_SIDE, 0)
}

#[test]
fn a_runner_that_was_dropped_is_not_missed_at_stop(rt: HostRuntime) -> Result<(), Fail> {
    stop_without(&rt, rt.alloc(), 3, 1)
}
