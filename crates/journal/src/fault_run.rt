//! The fault of a run, without what ran before it.

ghost use Rattle.std.specs.Prelude.{◌≡◌, ◌↔◌, ◌<◌, ◌≤◌, IfOk, length};
ghost use Rattle.std.specs.Option.{option_map};
ghost use Rattle.pram_model.specs.Layout.{total_size};
ghost use Rattle.journal.specs.Entries.{entry_is};
ghost use Rattle.journal.specs.LastFault.{run_fault};

use crate::Entry;
use crate::last_fault::LastFault;
use observing::{Watch, observe_watched};
use pram_check::Program;
use pram_meaning::MeaningRefusal;
use std::alloc::Global;

/// The entry of the fault with which a program's run on an input ends within `bound` statements, as [`tell_run`](crate::tell_run) tells
/// it, and none where the run ends or goes on. Of what runs before nothing is kept, so it takes the memory of the run and of one
/// statement. The watch is told how far the run is. E11 where there are more values than cells; E16 only where memory was refused.
pub fn fault_of<V: Watch>(
    alloc: Global,
    program: &Program,
    input: &[i64],
    bound: u32,
    watch: &mut V,
) -> Result<Option<Entry>, MeaningRefusal>
    // It is the last entry of the run where that is a fault, and none where the run ends or goes on.
    ensures fault { IfOk result (λ r. option_map entry_is r ≡ run_fault program.now input.now bound) }
    // The input is refused as too long exactly where it has more values than the program has cells.
    ensures too_long { (result ≡ Err MeaningRefusal.InputTooLong) ↔ (total_size program.now.layout < length input.now) }
{
    let last = LastFault {
        alloc,
        program,
        entry: None,
    };
    let (last, done) = observe_watched(alloc, program, input, bound, last, watch);
    done?;
    Ok(last.entry)
}
