//! The last entries of a run.

ghost use Rattle.std.specs.Prelude.{◌≡◌, ◌∷◌, ◌++◌, [], IfOk, IfSome, OnOk, List, ℤ};
ghost use Rattle.journal.specs.Entries as spec;
ghost use Rattle.pages.specs.Gathered.{AreRecent, IsBehind};

use crate::cut::ROOM;
use crate::state::RunState;
use journal::{Act, Entry};
use std::alloc::{AllocError, Global};
use std::mem;

// How many bytes the line of an entry has at least, what each processor did in it, and each of its reads.
const LINE: usize = 109;

const ACT: usize = 78;

const READ: usize = 6;

/// The last entries of a run, in two parts; how many came before them, and the state behind these. Their lines have more bytes than a page
/// has room for, or they are all; and at most twice as many, so that they take some tens of MiB.
#[derive(Drop)]
pub(crate) struct Recent {
    pub(crate) left: usize,
    pub(crate) state: RunState,
    pub(crate) older: Vec<Entry>,
    pub(crate) newer: Vec<Entry>,
    /// How many bytes the lines of the newer ones have at least.
    pub(crate) size: usize,
}

// How many bytes the line of an entry has at least.
fn least_size(entry: &Entry) -> usize {
    match entry {
        Entry::Ran { acts, .. } => least_of_acts(acts),
        Entry::Faulted { .. } => 0,
    }
}

fn least_of_acts(acts: &[Act]) -> usize {
    let mut size = LINE;
    for act in acts {
        let reads = act.reads.len().saturating_mul(READ);
        size = size.saturating_add(reads).saturating_add(ACT);
    }
    size
}

impl Recent {
    /// None yet, before the first statement on this input.
    pub(crate) fn new(alloc: Global, input: &[i64]) -> Result<Recent, AllocError>
        ensures { IfOk result (λ r. AreRecent input.now [] r) }
    {
        let state = RunState::before_all(alloc, input)?;
        Ok(Recent {
            left: 0,
            state,
            older: Vec::new(alloc),
            newer: Vec::new(alloc),
            size: 0,
        })
    }

    // Lets the older ones go.
    fn shift(&mut self, alloc: Global) -> Result<(), AllocError>
        ensures { OnOk result ((input : List ℤ) (es : List spec.Entry) → AreRecent input es self.old → AreRecent input es self.new) }
    {
        let Some(left) = self.left.checked_add(self.older.len()) else {
            return Err(AllocError);
        };
        self.state.go_on_all(&self.older)?;
        let newer = mem::replace(&mut self.newer, Vec::new(alloc));
        self.older = newer;
        self.left = left;
        self.size = 0;
        Ok(())
    }

    /// One entry more. `AllocError`: memory was refused; what is kept is of no use then.
    pub(crate) fn keep(&mut self, alloc: Global, entry: Entry) -> Result<(), AllocError>
        ensures { OnOk result ((input : List ℤ) (es : List spec.Entry) → AreRecent input es self.old →
            AreRecent input (es ++ spec.entry_is entry ∷ []) self.new) }
    {
        if ROOM < self.size {
            self.shift(alloc)?;
        }
        let size = self.size.saturating_add(least_size(&entry));
        self.newer.push(entry)?;
        self.size = size;
        Ok(())
    }

    /// The state behind the entry of this number, or of the last one, if it isn't before these. `AllocError`: memory was refused.
    pub(crate) fn state_behind(self, behind: usize) -> Result<Option<RunState>, AllocError>
        ensures { IfOk result (λ o. IfSome o (λ s. (input : List ℤ) (es : List spec.Entry) → AreRecent input es self →
            IsBehind input es behind s)) }
    {
        let Some(more) = behind.checked_sub(self.left) else {
            return Ok(None);
        };
        let mut state = self.state;
        state.go_on_to(&self.older, more)?;
        state.go_on_to(&self.newer, more.saturating_sub(self.older.len()))?;
        Ok(Some(state))
    }
}
