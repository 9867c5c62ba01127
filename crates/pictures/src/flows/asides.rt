//! Which reads of a statement of a run stand in a subscript.

ghost use Rattle.std.specs.Prelude.{◌≡◌, IfOk};
ghost use Rattle.journal.specs.Entries.{entry_is};
ghost use Rattle.pictures.specs.Flows.Asides as spec;

use crate::flows::entries::location_in;
use crate::flows::outside::subscript_reads;
use journal::Entry;
use pram_check::Program;
use std::alloc::{AllocError, Global};

/// Which shared reads of the statement of this entry stand in a subscript, read by read, in the order in which a processor makes them; for
/// `Flow`. `AllocError`: memory was refused.
pub(crate) fn asides_of(
    alloc: Global,
    program: &Program,
    entry: &Entry,
) -> Result<Vec<bool>, AllocError>
    // It tells which of the shared reads of the entry's statement stand in a subscript, read by read in order of
    // evaluation.
    ensures { IfOk result (λ aside. aside.items ≡ spec.asides_in program.now.body (entry_is entry.now)) }
{
    subscript_reads(alloc, program, location_in(entry).offset)
}
