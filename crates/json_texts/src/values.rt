//! Facts as values of JSON.

ghost use Rattle.std.specs.Prelude.{◌≡◌, IfOk, decimal};
ghost use Rattle.serde_json.specs.Data.{string};
ghost use Rattle.serde_json.specs.View.{view};
ghost use Rattle.json_texts.specs.Facts as facts;

use itoa::Buffer;
use serde_json::Value;
use std::alloc::{AllocError, Global};

/// A text by its bytes. Those that are no UTF-8 are replaced.
pub(crate) fn letters_of(alloc: Global, bytes: &[u8]) -> Result<Value, AllocError>
    ensures { IfOk result (λ v. view v ≡ facts.letters bytes.now) }
{
    let text = String::from_utf8_lossy(alloc, bytes)?;
    Ok(Value::String(text))
}

/// A value of a program: a string, in decimal.
pub(crate) fn value_of(alloc: Global, value: i64) -> Result<Value, AllocError>
    ensures { IfOk result (λ v. view v ≡ facts.value value) }
{
    let mut digits = Buffer::new();
    Value::try_from_str(alloc, digits.format(value))
}

// Below this every reader of JSON takes a number exactly, also one that holds it as a float of 64 bits.
const EXACT: u128 = 9_007_199_254_740_992;

fn digits_of(alloc: Global, count: u128) -> Result<Value, AllocError>
    ensures { IfOk result (λ v. view v ≡ string (decimal count)) }
{
    let mut digits = Buffer::new();
    Value::try_from_str(alloc, digits.format(count))
}

/// A sum: a number below 2^53, and from there on a string, in decimal.
pub(crate) fn large_of(alloc: Global, count: u128) -> Result<Value, AllocError>
    ensures { IfOk result (λ v. view v ≡ facts.large count) }
{
    if count < EXACT {
        Ok(Value::from(count as u64))
    } else {
        digits_of(alloc, count)
    }
}

/// Values of a program, in order.
pub(crate) fn values_of(alloc: Global, values: &[i64]) -> Result<Value, AllocError>
    ensures { IfOk result (λ v. view v ≡ facts.values values.now) }
{
    let mut list = Vec::new(alloc);
    for value in values {
        list.push(value_of(alloc, *value)?)?;
    }
    Ok(Value::Array(list))
}

/// Counts, in order.
pub(crate) fn counts_of(alloc: Global, counts: &[u64]) -> Result<Value, AllocError>
    ensures { IfOk result (λ v. view v ≡ facts.counts counts.now) }
{
    let mut list = Vec::new(alloc);
    for count in counts {
        list.push(Value::from(*count))?;
    }
    Ok(Value::Array(list))
}
