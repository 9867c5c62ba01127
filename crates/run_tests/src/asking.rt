//! Workers that ask their map for cells as they go: the work is theirs, phase by phase, and not done beforehand.

ghost use Rattle.std.specs.Prelude.{◌≡◌};
ghost use Rattle.address_map.specs.Permutation.{same};
ghost use Rattle.address_map.specs.SpreadLaws.{spread_lawful, same_inverse};

use crate::programs::{PATH, POINTER_JUMPING, code_of};
use address_map::{AddressMap, Identity};
use crossbeam_utils::atomic::AtomicCell;
use std::alloc::Global;
use std::sync::Wait;
use std::thread::Threads;
use workers::{Gate, run_workers};

// The map that leaves each cell its number, and counts how often it is asked.
#[derive(Drop)]
struct Asked<'c> {
    map: Identity,
    questions: &'c AtomicCell<u64>,
}

impl<'c> Asked<'c> {
    fn count(&self) {
        let _before = self.questions.fetch_add(1);
    }
}

impl<'c> AddressMap for Asked<'c> {
    ghost shape = { λ m. ⟦<Identity as AddressMap>⟧.shape m.map };

    fn cells(&self) -> u32 {
        self.map.cells()
    }

    fn modules(&self) -> u32 {
        self.map.modules()
    }

    fn size(&self, module: u32) -> u32 {
        self.map.size(module)
    }

    fn place(&self, cell: u32) -> (u32, u32) {
        self.count();
        self.map.place(cell)
    }

    fn cell(&self, module: u32, offset: u32) -> Option<u32> {
        self.count();
        self.map.cell(module, offset)
    }

    ghost lawful = { λ m. spread_lawful m.map.spread.cells m.map.spread.modules same same m.map.spread.fits m.map.spread.one
        m.map.spread.few (same_inverse m.map.spread.cells) };
}

// How many questions worker 0 found at its last exchange, and at how many exchanges it found more than at the one before.
#[derive(Drop)]
struct Rises<'c> {
    questions: &'c AtomicCell<u64>,
    found: AtomicCell<u64>,
    rises: AtomicCell<u64>,
}

impl<'c> Gate for Rises<'c> {
    fn pass<R: Wait>(&self, _rt: &R, worker: u32, _phase: u64, _statements: u32) {
        if worker != 0 {
            return;
        }
        let now = self.questions.load();
        if now > self.found.swap(now) {
            let _before = self.rises.fetch_add(1);
        }
    }
}

fn count_rises<R: Threads + Wait + Sync>(rt: &R, alloc: Global) -> Option<u64> {
    let code = code_of(alloc, POINTER_JUMPING)?;
    let questions = AtomicCell::new(0);
    let map = Asked {
        map: Identity::new(8, 3).ok()?,
        questions: &questions,
    };
    let gate = Rises {
        questions: &questions,
        found: AtomicCell::new(0),
        rises: AtomicCell::new(0),
    };
    let found = run_workers(rt, alloc, &code, &map, 3, &PATH, 100, &gate);
    found.ok()?;
    Some(gate.rises.load())
}

// Each of the three statements reads twice, and worker 0 has a processor that does.
#[test]
fn cells_are_asked_for_in_every_statement(rt: HostRuntime) {
    let found = count_rises(&rt, rt.alloc());
    assert!(rt; found.is_some_and(|rises| rises >= 6));
}
