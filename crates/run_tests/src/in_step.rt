//! Three workers that are in step: each passes each phase once, in order, and none before all have passed the phase before.

use crate::programs::{TREE_SUM, by};
use crossbeam_utils::atomic::AtomicCell;
use program_runs::run_text;
use std::alloc::Global;
use std::sync::Wait;
use std::thread::Threads;
use workers::Gate;

// The last phase that each of three workers has passed, and whether one was ever out of step.
#[derive(Drop)]
struct Steps {
    passed: [AtomicCell<u64>; 3],
    was_wrong: AtomicCell<bool>,
}

impl Steps {
    fn new() -> Steps {
        Steps {
            passed: [AtomicCell::new(0), AtomicCell::new(0), AtomicCell::new(0)],
            was_wrong: AtomicCell::new(false),
        }
    }

    // Whether all have passed at least so many phases.
    fn all_passed(&self, phases: u64) -> bool {
        self.passed[0].load() >= phases
            && self.passed[1].load() >= phases
            && self.passed[2].load() >= phases
    }

    // Whether each has passed just so many phases, in step.
    fn are_right(&self, phases: u64) -> bool {
        let same = self.passed[0].load() == phases
            && self.passed[1].load() == phases
            && self.passed[2].load() == phases;
        same && !self.was_wrong.load()
    }
}

impl Gate for Steps {
    fn pass<R: Wait>(&self, _rt: &R, worker: u32, phase: u64, _statements: u32) {
        match self.passed.get(worker as usize) {
            Some(mine) if phase > 0 && self.all_passed(phase - 1) => {
                if mine.swap(phase) != phase - 1 {
                    self.was_wrong.store(true);
                }
            }
            _ => self.was_wrong.store(true),
        }
    }
}

fn in_step<R: Threads + Wait + Sync>(rt: &R, alloc: Global) -> bool {
    let steps = Steps::new();
    let input = [1, 2, 3, 4, 5, 6, 7, 8];
    match run_text(rt, alloc, TREE_SUM, &input, by(3), &steps) {
        Ok(report) => report.counts.len() == 15 && steps.are_right(15),
        Err(_) => false,
    }
}

// Four rounds of two exchanges for the reads and one for the writes, two for what is printed, and the close.
#[test]
fn workers_are_in_step(rt: HostRuntime) {
    assert!(rt; in_step(&rt, rt.alloc()));
}
