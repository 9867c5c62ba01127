//! Why a run faults.

ghost use Rattle.std.specs.Prelude.{◌≡◌, IfOk, IfSome};
ghost use Rattle.std.specs.Option.{option_map};
ghost use Rattle.journal.specs.Entries.{entry_is};
ghost use Rattle.diagnoses.specs.Reasons as spec;

use crate::wrong_element::wrong_element;
use journal::{Cause, Entry, fault_of};
use observing::Watch;
use pram_check::Program;
use std::alloc::{AllocError, Global};

/// What is known of why a run faults: the cause, if it is known; at a cell the processors that met there; and the offset of the element
/// whose subscript is wrong, if it is that, in the text that is judged.
#[derive(Drop)]
pub struct Reason {
    pub cause: Option<Cause>,
    pub met: Vec<i64>,
    pub at: Option<u32>,
}

impl Reason {
    /// Nothing is known.
    pub fn unknown(alloc: Global) -> Reason
        ensures { spec.reason_is result ≡ spec.unknown }
    {
        Reason {
            cause: None,
            met: Vec::new(alloc),
            at: None,
        }
    }
}

// What an entry tells of it.
fn reason_of(alloc: Global, program: &Program, entry: Entry) -> Result<Reason, AllocError>
    ensures { IfOk result (λ reason. spec.reason_is reason ≡ spec.reason_of program.now (entry_is entry)) }
{
    match entry {
        Entry::Faulted {
            location,
            fault,
            cause,
            acts,
            met,
            ..
        } => {
            let at = wrong_element(alloc, program, location, &acts, fault.place, &cause)?;
            Ok(Reason { cause, met, at })
        }
        Entry::Ran { .. } => Ok(Reason::unknown(alloc)),
    }
}

// What the entry of a fault tells of it, if there is one.
fn reason_in(alloc: Global, program: &Program, fault: Option<Entry>) -> Result<Reason, AllocError>
    ensures { IfOk result (λ reason. spec.reason_is reason ≡ spec.reason_in program.now (option_map entry_is fault)) }
{
    match fault {
        Some(entry) => reason_of(alloc, program, entry),
        None => Ok(Reason::unknown(alloc)),
    }
}

/// Why a program's run faults, found by running the meaning again, of which the fault alone is kept; the watch is told how far that run is.
/// None where memory was refused, or where the input has more values than there are cells.
#[tactic(auto, using(crate::proofs::LastReason::reason_told))]
pub fn run_reason<V: Watch>(
    alloc: Global,
    program: &Program,
    input: &[i64],
    bound: u32,
    watch: &mut V,
) -> Option<Reason>
    // It is the cause of the run's fault by its meaning, who met at its cell, and the element whose subscript is wrong,
    // where it is that.
    ensures { IfSome result (λ reason. spec.reason_is reason ≡ spec.run_reason program.now input.now bound) }
{
    let Ok(fault) = fault_of(alloc, program, input, bound, watch) else {
        return None;
    };
    match reason_in(alloc, program, fault) {
        Ok(reason) => Some(reason),
        Err(AllocError) => None,
    }
}
