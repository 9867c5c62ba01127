//! One exchange.

ghost use Rattle.std.specs.Prelude.{◌≡◌, ◌≤◌, IfOk, OnOk, length};
ghost use Rattle.serde_json.specs.View.{view};
ghost use Rattle.superstep_machine.specs.Purposes.{purpose_is};
ghost use Rattle.exchange_counts.specs.CountedExchanges.{exchange_at};
ghost use Rattle.json_texts.specs.Facts.{with_fields};
ghost use Rattle.json_texts.specs.Shown.{shown};
ghost use Rattle.json_texts.specs.TraceFacts as spec;

use crate::values::counts_of;
use crate::{Object, Value};
use exchange_counts::{Counts, Purpose};
use std::alloc::{AllocError, Global};

fn purpose_word(purpose: Purpose) -> &'static str
    ensures { result.now ≡ spec.purpose_word (purpose_is purpose) }
{
    match purpose {
        Purpose::Send => "send",
        Purpose::Reply => "reply",
        Purpose::Vote { destination: _ } => "vote",
        Purpose::Close => "close",
    }
}

// How many words each worker sent, in order of workers.
fn sent_of(alloc: Global, counts: &Counts, k: usize) -> Result<Vec<u64>, AllocError>
    requires first { 1 ≤ k }
    requires last { k ≤ length counts.now }
    ensures { IfOk result (λ words. words.items ≡ (exchange_at counts.now k).sent) }
{
    let workers = counts.workers();
    let mut words = Vec::new(alloc);
    'workers: for w in 0..workers {
        words.push(counts.sent(k, w))?;
    }
    Ok(words)
}

// How many words each worker received, in order of workers.
fn received_of(alloc: Global, counts: &Counts, k: usize) -> Result<Vec<u64>, AllocError>
    requires first { 1 ≤ k }
    requires last { k ≤ length counts.now }
    ensures { IfOk result (λ words. words.items ≡ (exchange_at counts.now k).received) }
{
    let workers = counts.workers();
    let mut words = Vec::new(alloc);
    'workers: for w in 0..workers {
        words.push(counts.received(k, w))?;
    }
    Ok(words)
}

// What is so of an exchange, whatever line it serves.
fn put_exchange(
    alloc: Global,
    object: &mut Object,
    counts: &Counts,
    k: usize,
) -> Result<(), AllocError>
    requires first { 1 ≤ k }
    requires last { k ≤ length counts.now }
    ensures { OnOk result (shown object.new ≡ with_fields (spec.exchange_fields k (exchange_at counts.now k)) (shown object.old)) }
{
    let (purpose, h) = counts.exchange(k);
    let sent = sent_of(alloc, counts, k)?;
    let received = received_of(alloc, counts, k)?;
    object.put_count("exchange", k as u64)?;
    object.put_word("for", purpose_word(purpose))?;
    object.put("sent", counts_of(alloc, &sent)?)?;
    object.put("received", counts_of(alloc, &received)?)?;
    object.put_count("h", h)
}

fn put_line(object: &mut Object, line: Option<u32>) -> Result<(), AllocError>
    ensures { OnOk result (shown object.new ≡ with_fields (spec.line_fields line) (shown object.old)) }
{
    match line {
        None => Ok(()),
        Some(line) => object.put_count("line", u64::from(line)),
    }
}

/// The line of exchange k, counted from 1, where there is one.
pub(crate) fn line_of(lines: &[u32], k: usize) -> Option<u32>
    requires first { 1 ≤ k }
    ensures { result ≡ spec.line_of lines.now k }
{
    match lines.get(k - 1) {
        Some(line) => Some(*line),
        None => None,
    }
}

/// The facts of an exchange, from 1, that serves the statement of that line.
pub(crate) fn exchange_facts(
    alloc: Global,
    counts: &Counts,
    line: Option<u32>,
    k: usize,
) -> Result<Value, AllocError>
    requires first { 1 ≤ k }
    requires last { k ≤ length counts.now }
    ensures { IfOk result (λ v. view v ≡ spec.exchange_facts k line (exchange_at counts.now k)) }
{
    let mut object = Object::new(alloc);
    put_exchange(alloc, &mut object, counts, k)?;
    put_line(&mut object, line)?;
    Ok(object.into_value())
}
