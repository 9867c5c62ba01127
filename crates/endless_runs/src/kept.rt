//! A state that a loop had.

ghost use Rattle.std.specs.Prelude.{◌≡◌, IfOk, None, OnOk, Some, true};
ghost use Rattle.std.specs.Bool.{Decides};
ghost use Rattle.pram_meaning.specs.Runs.{state_of};
ghost use Rattle.endless_runs.specs.Search.{IsBack, IsStill};

use crate::cycle::Cycle;
use pram_meaning::run::Run;
use std::alloc::{AllocError, Global};

// A loop's state is kept behind a turn once so many statements have run in it.
const FIRST: u32 = 16;

/// The uniform variables and the cells that a loop had behind one of its turns, and how many statements had run.
#[derive(Drop)]
pub(crate) struct Kept {
    count: u32,
    uniforms: Vec<i64>,
    cells: Vec<i64>,
}

// Whether two lists of values are one.
fn same_values(a: &[i64], b: &[i64]) -> bool
    ensures { Decides result (a.now ≡ b.now) }
{
    a == b
}

impl Kept {
    /// The state of a run.
    fn of(alloc: Global, run: &Run) -> Result<Kept, AllocError>
        ensures count { IfOk result (λ k. k.count ≡ run.now.count) }
        ensures uniforms { IfOk result (λ k. k.uniforms.items ≡ run.now.uniforms.items) }
        ensures cells { IfOk result (λ k. k.cells.items ≡ run.now.cells.items) }
    {
        let uniforms = Vec::from_slice(alloc, &run.uniforms)?;
        let cells = Vec::from_slice(alloc, &run.cells)?;
        Ok(Kept {
            count: run.count,
            uniforms,
            cells,
        })
    }

    /// Whether a run has that state again.
    fn is_back(&self, run: &Run) -> bool
        ensures uniforms { result ≡ true → self.now.uniforms.items ≡ run.now.uniforms.items }
        ensures cells { result ≡ true → self.now.cells.items ≡ run.now.cells.items }
    {
        same_values(&self.uniforms, &run.uniforms) && same_values(&self.cells, &run.cells)
    }
}

/// Who keeps a state of a loop.
#[derive(Drop)]
pub(crate) struct Keeper {
    kept: Option<Kept>,
    // it keeps the next one where so many statements have run
    next: u32,
    // and again each time that these are so many times as many
    times: u32,
}

impl Keeper {
    // Of a loop that begins here.
    fn new(run: &Run, times: u32) -> Keeper
        ensures { result.kept ≡ None }
    {
        Keeper {
            kept: None,
            next: run.count.saturating_add(FIRST),
            times,
        }
    }

    /// Who keeps the first state of a loop that begins here, and no other one.
    pub(crate) fn of_first(run: &Run) -> Keeper
        ensures { result.kept ≡ None }
    {
        Keeper::new(run, u32::MAX)
    }

    /// Who keeps another state each time that all statements have doubled.
    pub(crate) fn of_later(run: &Run) -> Keeper
        ensures { result.kept ≡ None }
    {
        Keeper::new(run, 2)
    }

    /// Whether the loop of this line is back at the state that was kept.
    pub(crate) fn find(&self, run: &Run, line: u32) -> Option<Cycle>
        ensures { (cycle : Cycle) → result ≡ Some cycle → IsBack self.now.kept line (state_of run.now) cycle }
    {
        match &self.kept {
            Some(kept) if kept.is_back(run) => Some(Cycle {
                line,
                statements: run.count.saturating_sub(kept.count),
            }),
            _ => None,
        }
    }

    /// Keeps the state behind a turn, if it is time for that. The error is that memory was refused.
    pub(crate) fn look(&mut self, alloc: Global, run: &Run) -> Result<(), AllocError>
        ensures { OnOk result (IsStill self.old.kept (state_of run.now) self.new.kept) }
    {
        if self.next <= run.count {
            self.kept = Some(Kept::of(alloc, run)?);
            self.next = run.count.saturating_mul(self.times);
        }
        Ok(())
    }
}
