//! Two workers that wait for each other: they run at the same time, in threads of their own.

use crate::programs::{PATH, POINTER_JUMPING, by, code_of};
use address_map::Identity;
use crossbeam_utils::atomic::AtomicCell;
use program_runs::run_text;
use std::alloc::Global;
use std::sync::Wait;
use std::thread;
use std::thread::Threads;
use std::time::{Clock, Duration};
use workers::{Gate, run_workers};

// How often one looks for the other, each time after a millisecond, before it goes on alone.
const LOOKS: u32 = 10_000;

// Where two workers meet: each comes before its first exchange, and waits for the other there.
#[derive(Drop)]
struct Meeting<'c, C: Clock> {
    clock: &'c C,
    first_came: AtomicCell<bool>,
    second_came: AtomicCell<bool>,
    // how many have met the other
    met: AtomicCell<u32>,
}

impl<'c, C: Clock> Meeting<'c, C> {
    fn new(clock: &'c C) -> Meeting<'c, C> {
        Meeting {
            clock,
            first_came: AtomicCell::new(false),
            second_came: AtomicCell::new(false),
            met: AtomicCell::new(0),
        }
    }

    fn both_met(&self) -> bool {
        self.met.load() == 2
    }

    fn wait_for(&self, other: &AtomicCell<bool>) {
        for _ in 0..LOOKS {
            if other.load() {
                let _before = self.met.fetch_add(1);
                return;
            }
            thread::sleep(self.clock, Duration::from_millis(1));
        }
    }
}

impl<'c, C: Clock> Gate for Meeting<'c, C> {
    fn pass<R: Wait>(&self, _rt: &R, worker: u32, phase: u64, _statements: u32) {
        if phase == 1 {
            let (mine, other) = match worker {
                0 => (&self.first_came, &self.second_came),
                _ => (&self.second_came, &self.first_came),
            };
            mine.store(true);
            self.wait_for(other);
        }
    }
}

fn meets_by_text<R: Threads + Wait + Clock + Sync>(rt: &R, alloc: Global) -> bool {
    let meeting = Meeting::new(rt);
    run_text(rt, alloc, POINTER_JUMPING, &PATH, by(2), &meeting).is_ok() && meeting.both_met()
}

fn meets_by_code<R: Threads + Wait + Clock + Sync>(rt: &R, alloc: Global) -> Option<bool> {
    let meeting = Meeting::new(rt);
    let code = code_of(alloc, POINTER_JUMPING)?;
    let map = Identity::new(8, 2).ok()?;
    let found = run_workers(rt, alloc, &code, &map, 2, &PATH, 100, &meeting);
    Some(found.is_ok() && meeting.both_met())
}

#[test]
fn workers_of_a_text_meet(rt: HostRuntime) {
    assert!(rt; meets_by_text(&rt, rt.alloc()));
}

#[test]
fn workers_of_code_meet(rt: HostRuntime) {
    assert_eq!(rt; meets_by_code(&rt, rt.alloc()), Some(true));
}
