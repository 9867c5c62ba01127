//! The most words that workers send for a run.

ghost use Rattle.std.specs.Prelude.{◌≡◌, IfOk};
ghost use Rattle.costs.specs.Communication.{write_words};
ghost use Rattle.costs.specs.Words.{AreWordsAsked, AreWordsOf};

use crate::tally::Tally;
use crate::too_many::TooMany;
use pram_model::Rule;

// The words of a write: the cell, the writer and the value, which has two where it is a sum.
fn words_of_write(rule: Rule) -> u8
    ensures { result ≡ write_words rule }
{
    match rule {
        Rule::Sum => 4,
        Rule::Erew | Rule::Crew | Rule::Common | Rule::Priority => 3,
    }
}

// Of a run with so many reads, of which `outer` were made outside pardo, and so many writes: two words for each read
// inside, two for each worker and each read outside, and those of each write.
fn words_of(
    rule: Rule,
    workers: u32,
    reads: u128,
    outer: u128,
    writes: u64,
) -> Result<u128, TooMany>
    ensures { IfOk result (AreWordsOf rule workers reads outer writes) }
{
    let Some(inner) = reads.checked_sub(outer) else {
        return Err(TooMany);
    };
    let Some(outside) = outer.checked_mul(u128::from(workers)) else {
        return Err(TooMany);
    };
    let Some(read) = inner.checked_add(outside) else {
        return Err(TooMany);
    };
    let Some(asked) = read.checked_mul(2) else {
        return Err(TooMany);
    };
    let written = u128::from(words_of_write(rule)) * u128::from(writes);
    match asked.checked_add(written) {
        Some(words) => Ok(words),
        None => Err(TooMany),
    }
}

/// Of a run that was counted, with so many reads outside pardo: the most words that workers send, if their number
/// is given. The error is that there are too many to be counted.
pub fn words_asked(
    rule: Rule,
    workers: Option<u32>,
    tally: &Tally,
    outer: u128,
) -> Result<Option<u128>, TooMany>
    ensures { IfOk result (AreWordsAsked rule workers tally.now.reads outer tally.now.writes) }
{
    match workers {
        None => Ok(None),
        Some(workers) => {
            let words = words_of(rule, workers, tally.reads, outer, tally.writes)?;
            Ok(Some(words))
        }
    }
}
