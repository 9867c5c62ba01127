//! A sweep over sizes.

ghost use Rattle.std.specs.Prelude.{◌≡◌, ◌∷◌, [], IfOk, OnOk, Some, map, string_bytes};
ghost use Rattle.serde_json.specs.View.{view};
ghost use Rattle.json_texts.specs.Facts.{with_fields};
ghost use Rattle.json_texts.specs.Lines.{Adds, IsJson};
ghost use Rattle.json_texts.specs.Shown.{shown};
ghost use Rattle.sweeps.specs.GrowthText.{growth_words};
ghost use Rattle.json_texts.specs.SweepFacts as spec;

use crate::cost::put_most;
use crate::line::push_line;
use crate::{Object, Value};
use std::alloc::{AllocError, Global};
use sweeps::{Counts, Ending, Growth, Growths, SizeRow, write_growth_words};
use text_out::{Buffer, Out, WriteFault};

fn put_counts(object: &mut Object, counts: &Counts) -> Result<(), AllocError>
    ensures { OnOk result (shown object.new ≡ with_fields (spec.count_fields counts.now) (shown object.old)) }
{
    object.put_count("time", u64::from(counts.time))?;
    object.put_large("work", u128::from(counts.work))?;
    object.put_count("width", u64::from(counts.width))?;
    object.put_large("reads", counts.reads)?;
    object.put_large("writes", u128::from(counts.writes))
}

// How a run came out that didn't fault, and what it costs.
fn put_run(object: &mut Object, way: &str, counts: &Counts) -> Result<(), AllocError>
    ensures { OnOk result (shown object.new ≡ with_fields (spec.run_fields way.now counts.now) (shown object.old)) }
{
    object.put_word("outcome", way)?;
    put_most(object, counts.most_exchanges, counts.most_words)?;
    put_counts(object, counts)
}

fn put_fault(object: &mut Object, counts: &Counts, fault: &[u8]) -> Result<(), AllocError>
    ensures { OnOk result (shown object.new ≡ with_fields (spec.fault_fields counts.now fault.now) (shown object.old)) }
{
    object.put_word("outcome", "fault")?;
    object.put_letters("fault", fault)?;
    put_counts(object, counts)
}

fn put_refusal(object: &mut Object, refusal: &[u8]) -> Result<(), AllocError>
    ensures { OnOk result (shown object.new ≡ with_fields (spec.refusal_fields refusal.now) (shown object.old)) }
{
    object.put_word("outcome", "refused")?;
    object.put_letters("refusal", refusal)
}

fn put_ending(object: &mut Object, ending: &Ending) -> Result<(), AllocError>
    ensures { OnOk result (shown object.new ≡ with_fields (spec.ending_fields ending.now) (shown object.old)) }
{
    match ending {
        Ending::Ended(counts) => put_run(object, "ended", counts),
        Ending::GoesOn(counts) => put_run(object, "goes on", counts),
        Ending::Faulted(counts, fault) => put_fault(object, counts, fault.as_slice()),
        Ending::Refused(refusal) => put_refusal(object, refusal.as_slice()),
    }
}

fn row_facts(alloc: Global, name: &[u8], row: &SizeRow) -> Result<Value, AllocError>
    ensures { IfOk result (λ v. view v ≡ spec.row_facts name.now row.now) }
{
    let mut object = Object::new(alloc);
    object.put_letters("size", name)?;
    object.put_large("value", u128::from(row.size))?;
    put_ending(&mut object, &row.ending)?;
    Ok(object.into_value())
}

// The line of a size.
fn push_row(alloc: Global, text: &mut String, name: &[u8], row: &SizeRow) -> Result<(), AllocError>
    ensures json { OnOk result (Adds (spec.row_facts name.now row.now ∷ []) (string_bytes text.old) (string_bytes text.new)) }
{
    let facts = row_facts(alloc, name, row)?;
    push_line(alloc, text, &facts)
}

// The lines of the sizes.
fn rows_text(alloc: Global, name: &[u8], rows: &[SizeRow]) -> Result<String, AllocError>
    ensures json { IfOk result (λ text. IsJson (map (spec.row_facts name.now) rows.now) (string_bytes text)) }
{
    let mut text = String::new(alloc);
    for row in rows {
        push_row(alloc, &mut text, name, row)?;
    }
    Ok(text)
}

// A buffer with the words of how a number grows.
fn words_of(alloc: Global, name: &[u8], growth: &Growth) -> Result<Buffer, AllocError>
    ensures { IfOk result (λ text. (⟦<Buffer as Out>⟧.state text).taken ≡ Some (growth_words name.now growth.now)) }
{
    let mut text = Buffer::new(alloc);
    match write_growth_words(name, growth, &mut text) {
        Ok(()) => Ok(text),
        Err(WriteFault) => Err(AllocError),
    }
}

fn put_told(
    alloc: Global,
    object: &mut Object,
    what: &str,
    name: &[u8],
    growth: &Growth,
) -> Result<(), AllocError>
    ensures { OnOk result (shown object.new ≡ with_fields (spec.told_fields what.now name.now growth.now) (shown object.old)) }
{
    let words = words_of(alloc, name, growth)?;
    object.put_letters(what, words.bytes())
}

// How what is named grows, where it is told.
fn put_growth(
    alloc: Global,
    object: &mut Object,
    what: &str,
    name: &[u8],
    growth: &Growth,
) -> Result<(), AllocError>
    ensures { OnOk result (shown object.new ≡ with_fields (spec.growth_fields what.now name.now growth.now) (shown object.old)) }
{
    if growth.is_told() {
        put_told(alloc, object, what, name, growth)
    } else {
        Ok(())
    }
}

fn put_growths(
    alloc: Global,
    object: &mut Object,
    name: &[u8],
    growths: &Growths,
) -> Result<(), AllocError>
    ensures { OnOk result (shown object.new ≡ with_fields (spec.growths_fields name.now growths.now) (shown object.old)) }
{
    put_growth(alloc, object, "time", name, &growths.time)?;
    put_growth(alloc, object, "work", name, &growths.work)
}

fn growths_facts(alloc: Global, name: &[u8], growths: &Growths) -> Result<Value, AllocError>
    ensures { IfOk result (λ v. view v ≡ spec.growths_facts name.now growths.now) }
{
    let mut object = Object::new(alloc);
    object.put_word("at", "these sizes")?;
    put_growths(alloc, &mut object, name, growths)?;
    Ok(object.into_value())
}

fn push_told(
    alloc: Global,
    text: &mut String,
    name: &[u8],
    growths: &Growths,
) -> Result<(), AllocError>
    ensures json { OnOk result (Adds (spec.growths_facts name.now growths.now ∷ []) (string_bytes text.old) (string_bytes text.new)) }
{
    let facts = growths_facts(alloc, name, growths)?;
    push_line(alloc, text, &facts)
}

// The line behind them, where anything is told.
fn push_growths(
    alloc: Global,
    text: &mut String,
    name: &[u8],
    growths: &Growths,
) -> Result<(), AllocError>
    ensures json { OnOk result (Adds (spec.last_facts name.now growths.now) (string_bytes text.old) (string_bytes text.new)) }
{
    if growths.time.is_told() || growths.work.is_told() {
        push_told(alloc, text, name, growths)
    } else {
        Ok(())
    }
}

/// What a program costs at several sizes, each on a line, as
/// `{"exchanges_at_most":"15","outcome":"ended","reads":"23","size":"n","time":17,"value":"8","width":8,"work":"28","writes":"15"}`, where
/// `size` is the size's name, with `words_at_most` where they are told. The outcome is `ended`, `goes on`, `fault`, with the text of it as
/// `fault` and without exchanges and words, or `refused`, with the text of it as `refusal` and no counts. Behind them, where anything is
/// told, how time and work grow, as `{"at":"these sizes","time":"4 log n + 5","work":"2 n + 3 log n + 3"}`.
pub fn json_sweep(
    alloc: Global,
    name: &[u8],
    rows: &[SizeRow],
    growths: &Growths,
) -> Result<String, AllocError>
    ensures json { IfOk result (λ text. IsJson (spec.sweep_facts name.now rows.now growths.now) (string_bytes text)) }
{
    let mut text = rows_text(alloc, name, rows)?;
    push_growths(alloc, &mut text, name, growths)?;
    Ok(text)
}
