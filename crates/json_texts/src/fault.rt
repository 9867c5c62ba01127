//! Faults.

ghost use Rattle.std.specs.Prelude.{◌≡◌, IfOk, OnOk, Some};
ghost use Rattle.json_texts.specs.Facts.{with_fields};
ghost use Rattle.json_texts.specs.Shown.{shown};
ghost use Rattle.text_out.specs.Out.{Writes};
ghost use Rattle.program_texts.specs.Shown as texts;
ghost use Rattle.json_texts.specs.OutcomeFacts as spec;

use crate::Object;
use pram_trees::Layout;
use pram_values::Place;
use program_texts::{kind_word, write_cell, write_place};
use std::alloc::{AllocError, Global};
use text_out::{Buffer, Out, WriteFault};
use write_rules::Fault;

// A buffer with the text of a place.
fn place_text(alloc: Global, layout: &Layout, place: Place) -> Result<Buffer, AllocError>
    ensures { IfOk result (λ text. (⟦<Buffer as Out>⟧.state text).taken ≡ Some (texts.place_text layout.now place)) }
{
    let mut text = Buffer::new(alloc);
    match write_place(&mut text, layout, place) {
        Ok(()) => Ok(text),
        Err(WriteFault) => Err(AllocError),
    }
}

/// A buffer with the text of a cell.
pub(crate) fn cell_text(alloc: Global, layout: &Layout, cell: usize) -> Result<Buffer, AllocError>
    ensures { IfOk result (λ text. (⟦<Buffer as Out>⟧.state text).taken ≡ Some (texts.cell_text layout.now cell)) }
{
    let mut text = Buffer::new(alloc);
    match write_cell(&mut text, layout, cell) {
        Ok(()) => Ok(text),
        Err(WriteFault) => Err(AllocError),
    }
}

/// Puts a fault: its kind, its place and its line.
pub(crate) fn put_fault(
    alloc: Global,
    object: &mut Object,
    layout: &Layout,
    fault: &Fault,
) -> Result<(), AllocError>
    ensures { OnOk result (shown object.new ≡ with_fields (spec.fault_fields layout.now fault.now) (shown object.old)) }
{
    let place = place_text(alloc, layout, fault.place)?;
    object.put_word("kind", kind_word(fault.kind))?;
    object.put_letters("place", place.bytes())?;
    object.put_count("line", u64::from(fault.line))
}
