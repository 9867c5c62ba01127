//! The worked listing by workers in threads: its outcome, its exchanges, and why it isn't run.

use address_map::Identity;
use bsp_machine::RunRefusal;
use bsp_verify::{Verified, verify};
use std::alloc::Global;
use std::sync::Wait;
use std::thread::Threads;
use superstep_code::read_listing;
use text_out::Buffer;
use tracer::write_trace;
use workers::{OpenGate, run_workers};

// b[i] := a[1] for four processors.
const BROADCAST: &[u8] = b"bsp 1
rule crew
procs 4
array a 1 2
array b 1 4
uniform 2
private 2
code 13
0 mark 7
1 uset 0 1
2 uset 1 4
3 enter 0 1 1
4 mark 8
5 pset 0 1
6 pask 1 0 0 1
7 send
8 reply
9 pindex 0
10 pput 1 0 1 2
11 leave
12 halt
";

pub(crate) const TRACE: &[u8] = b"1 send sent 1 1 received 2 0 h 2
2 reply sent 2 0 received 1 1 h 2
3 send sent 6 6 received 6 6 h 6
4 close sent 0 0 received 0 0 h 0
";

pub(crate) fn verified(alloc: Global) -> Option<Verified> {
    let code = read_listing(alloc, BROADCAST).ok()?;
    verify(alloc, code).ok()
}

fn is_traced<R: Threads + Wait + Sync>(rt: &R, alloc: Global) -> Option<bool> {
    let code = verified(alloc)?;
    let map = Identity::new(8, 2).ok()?;
    let (_, counts) = run_workers(rt, alloc, &code, &map, 2, &[9, 8], 2, &OpenGate).ok()?;
    let mut out = Buffer::new(alloc);
    write_trace(&counts, &[], &mut out).ok()?;
    Some(out.bytes() == TRACE)
}

#[test]
fn the_exchanges_of_the_worked_listing_are_told(rt: HostRuntime) {
    assert_eq!(rt; is_traced(&rt, rt.alloc()), Some(true));
}

// Why so many workers don't run it by a map of so many modules.
fn refusal_of<R: Threads + Wait + Sync>(
    rt: &R,
    alloc: Global,
    workers: u32,
    places: u32,
    modules: u32,
    input: &[i64],
) -> Option<RunRefusal> {
    let code = verified(alloc)?;
    let map = Identity::new(places, modules).ok()?;
    run_workers(rt, alloc, &code, &map, workers, input, 9, &OpenGate).err()
}

#[test]
fn refusals_come_in_order(rt: HostRuntime) {
    let alloc = rt.alloc();
    let long = [1, 2, 3, 4, 5, 6, 7];
    for workers in [0, 33, 4_294_967_295] {
        assert_eq!(rt;
            refusal_of(&rt, alloc, workers, 4, 2, &long),
            Some(RunRefusal::BadWorkers)
        );
    }
    assert_eq!(rt;
        refusal_of(&rt, alloc, 2, 4, 2, &long),
        Some(RunRefusal::BadMap)
    );
    assert_eq!(rt;
        refusal_of(&rt, alloc, 3, 8, 2, &long),
        Some(RunRefusal::BadMap)
    );
    assert_eq!(rt;
        refusal_of(&rt, alloc, 2, 8, 2, &long),
        Some(RunRefusal::InputTooLong)
    );
    assert_eq!(rt; refusal_of(&rt, alloc, 2, 8, 2, &long[..6]), None);
}
