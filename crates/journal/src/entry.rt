//! Entries: what is told of each statement.

use crate::act::Act;
use crate::cause::Cause;
use crate::change::Change;
use crate::local_change::LocalChange;
use crate::own_locals::OwnLocals;
use pram_tokens::Location;
use write_rules::Fault;

/// What is told of a statement that ran.
#[derive(Drop)]
pub enum Entry {
    /// Where it stands; what each processor did that executed it, in ascending order of indices; the
    /// cells, the uniform variables and the locals of processors whose value differs behind it, in
    /// ascending order; and what it printed.
    Ran {
        location: Location,
        acts: Vec<Act>,
        cells: Vec<Change>,
        variables: Vec<Change>,
        locals: Vec<LocalChange>,
        printed: Vec<i64>,
    },
    /// It faulted: where it stands; its fault, and why; what each processor had read before the fault's position, and no
    /// write; at a cell the indices of the processors that met there; and the locals of those, or of the one that faulted.
    Faulted {
        location: Location,
        fault: Fault,
        cause: Option<Cause>,
        acts: Vec<Act>,
        met: Vec<i64>,
        locals: Vec<OwnLocals>,
    },
}
