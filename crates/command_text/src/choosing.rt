//! Which cells are drawn in a flow.

ghost use Rattle.std.specs.Prelude.{◌≡◌, ◌<◌, ◌++◌, IfOk, IfSome, OnOk, length, slice_get};
ghost use Rattle.command_text.specs.Spans as spec;

use memory_texts::{Choice, is_chosen};
use pictures::CellSpan;
use pram_trees::Layout;
use std::alloc::{AllocError, Global};

fn add_between(
    spans: &mut Vec<CellSpan>,
    first: Option<u32>,
    last: Option<u32>,
) -> Result<(), AllocError>
    ensures { OnOk result (spans.new.items ≡ spans.old.items ++ spec.span_between first last) }
{
    if let (Some(first), Some(last)) = (first, last) {
        spans.push(CellSpan { first, last })?;
    }
    Ok(())
}

// The cells from the one to the other, if their declaration is chosen.
fn add_if(
    spans: &mut Vec<CellSpan>,
    chosen: bool,
    first: Option<u32>,
    last: Option<u32>,
) -> Result<(), AllocError>
    ensures { OnOk result (spans.new.items ≡ spans.old.items ++ spec.span_if chosen first last) }
{
    if chosen {
        add_between(spans, first, last)
    } else {
        Ok(())
    }
}

// Those of the declaration of that number, if it is chosen.
fn add_declared(
    spans: &mut Vec<CellSpan>,
    layout: &Layout,
    number: usize,
    choice: Choice<'_>,
) -> Result<(), AllocError>
    requires number { number < length layout.now }
    ensures { IfSome (slice_get layout.now number)
        (λ e. OnOk result (spans.new.items ≡ spans.old.items ++ spec.span_of layout.now choice.entry number e)) }
{
    let range = layout.range(number);
    let (first, last) = (
        layout.cell(number, range.low),
        layout.cell(number, range.high),
    );
    add_if(spans, is_chosen(choice, layout.name(number)), first, last)
}

// The cells of each declaration that is chosen.
fn spans_of(alloc: Global, layout: &Layout, choice: Choice<'_>) -> Result<Vec<CellSpan>, AllocError>
    ensures { IfOk result (λ spans. spans.items ≡ spec.spans_from layout.now choice.entry 0 layout.now) }
{
    let mut spans = Vec::new(alloc);
    for i in 0..layout.len() {
        add_declared(&mut spans, layout, i, choice)?;
    }
    Ok(spans)
}

/// The cells of the declarations that are chosen by their names; none where none is chosen so, and all cells are meant.
pub(crate) fn chosen_spans(
    alloc: Global,
    layout: &Layout,
    choice: Choice<'_>,
) -> Result<Vec<CellSpan>, AllocError>
    ensures { IfOk result (λ spans. spans.items ≡ spec.chosen_spans layout.now choice.entry) }
{
    match choice {
        Choice::All | Choice::Nothing => Ok(Vec::new(alloc)),
        Choice::Named(_) => spans_of(alloc, layout, choice),
    }
}
