//! How a run ends, as text.

ghost use Rattle.std.specs.Prelude.{◌≡◌, IfOk};
ghost use Rattle.program_texts.specs.Shown.{fault_text};
ghost use Rattle.write_rules.specs.Verdict.{verdict_of};
ghost use Rattle.command_facts.specs.Found.{ending_text};

use pram_trees::Layout;
use program_texts::write_fault_text;
use std::alloc::{AllocError, Global};
use text_out::Buffer;
use write_rules::{Fault, Outcome};

/// The text of a fault. `AllocError`: memory was refused.
pub fn text_of_fault(alloc: Global, layout: &Layout, fault: &Fault) -> Result<Vec<u8>, AllocError>
    // The text is the fault's line.
    ensures text { IfOk result (λ text. text.items ≡ fault_text layout.now fault.now) }
{
    let mut text = Buffer::new(alloc);
    match write_fault_text(&mut text, layout, fault) {
        Ok(()) => Vec::from_slice(alloc, text.bytes()),
        Err(_) => Err(AllocError),
    }
}

/// How a run ends: `ended`, `goes on`, or its fault. `AllocError`: memory was refused.
pub fn text_of_end(alloc: Global, layout: &Layout, outcome: &Outcome) -> Result<Vec<u8>, AllocError>
    // The text says how a run of this outcome ends.
    ensures text { IfOk result (λ text. text.items ≡ ending_text layout.now (verdict_of outcome.now)) }
{
    match outcome {
        Outcome::Ended { .. } => Vec::from_slice(alloc, b"ended"),
        Outcome::Faulted { fault, .. } => text_of_fault(alloc, layout, fault),
        Outcome::GoesOn { .. } => Vec::from_slice(alloc, b"goes on"),
    }
}
