//! A run between two statements.

ghost use Rattle.std.specs.Prelude.{◌≡◌, ◌++◌, IfOk, OnOk, pos, slice_set, replicate};
ghost use Rattle.pram_meaning.specs.declared.run.Halt.TheVariants.{OutOfMemory};

use crate::slate::Slate;
use std::alloc::{AllocError, Global};
use write_rules::Fault;

/// A run between two statements: how many have run, the output, the uniform variables and the cells;
/// and the slate of its statements.
#[derive(Drop)]
pub struct Run {
    pub count: u32,
    pub output: Vec<i64>,
    pub uniforms: Vec<i64>,
    pub cells: Vec<i64>,
    pub slate: Slate,
}

/// Why a run goes no further.
#[derive(Drop)]
pub enum Halt {
    /// A statement faulted.
    Fault(Fault),
    /// One statement more would begin than the bound allows.
    Bound,
    /// Memory was refused.
    OutOfMemory,
}

impl From<AllocError> for Halt {
    ghost from_gives = { λ _ halt. halt ≡ OutOfMemory };

    fn from(_: AllocError) -> Halt {
        Halt::OutOfMemory
    }
}

/// One item gets a value, if it is there.
pub fn set_number(items: &mut Vec<i64>, place: usize, value: i64)
    ensures { items.new.items ≡ slice_set items.old.items place value }
{
    if let Some(slot) = items.get_mut(place) {
        *slot = value;
    }
}

/// So many zeros.
pub fn zeros(alloc: Global, count: usize) -> Result<Vec<i64>, AllocError>
    ensures { IfOk result (λ v. v.items ≡ replicate count (pos 0)) }
{
    vec![in alloc; 0; count]
}

/// More zeros behind the items.
pub fn add_zeros(items: &mut Vec<i64>, count: u32) -> Result<(), AllocError>
    ensures { OnOk result (items.new.items ≡ items.old.items ++ replicate count (pos 0)) }
{
    items.resize(items.len() + count as usize, 0)
}
