//! Scopes of inputs, by the options of a command line.

ghost use Rattle.std.specs.Prelude.{◌≤◌, IfOk, IfErr};
ghost use Rattle.command_requests.specs.Words.{IsOfWords};

use crate::names::{CELLS, PERMUTATIONS, UNDER, VALUES, WITNESS};
use clap::ArgMatches;
use command_requests::{AlwaysWords, FewInputs, MOST_CELLS, MOST_INPUTS, MOST_ORDERED};
use intervals::Interval;
use pram_model::Rule;
use program_texts::Stop;
use run_options::read_number;
use scopes::{Scope, input_count, read_interval};

/// A number from 0 or 1 to the greatest.
pub(crate) fn count_of<'a>(word: &'a str, least: u32, most: u32) -> Result<u32, Stop<'a>>
    ensures from { IfOk result (λ count. least ≤ count) }
    ensures to { IfOk result (λ count. count ≤ most) }
    ensures refused { IfErr result IsOfWords }
{
    match read_number(word) {
        Some(count) => {
            if least <= count && count <= most {
                Ok(count)
            } else {
                Err(Stop::Number(word))
            }
        }
        None => Err(Stop::Number(word)),
    }
}

// All inputs of so many values of the interval.
fn scope_of<'a>(cells: &'a str, values: &'a str) -> Result<Scope, Stop<'a>>
    ensures { IfErr result IsOfWords }
{
    let count = count_of(cells, 0, MOST_CELLS)?;
    match read_interval(values) {
        Some((low, high)) => Ok(Scope {
            count,
            low,
            high,
            apart: false,
        }),
        None => Err(Stop::Number(values)),
    }
}

// All orders of so many numbers from 1 on.
fn orders_of<'a>(word: &'a str) -> Result<Scope, Stop<'a>>
    ensures { IfErr result IsOfWords }
{
    let count = count_of(word, 1, MOST_ORDERED)?;
    Ok(Scope {
        count,
        low: 1,
        high: i64::from(count),
        apart: true,
    })
}

/// The rule under which a program is run, if the command line has one.
pub(crate) fn rule_of<'a>(words: &ArgMatches<'a>) -> Result<Option<Rule>, Stop<'a>>
    ensures { IfErr result IsOfWords }
{
    match words.get_str(UNDER) {
        None => Ok(None),
        Some(word) => match Rule::of_word(word.as_bytes()) {
            Some(rule) => Ok(Some(rule)),
            None => Err(Stop::Number(word)),
        },
    }
}

// A scope of not too many inputs; the word is that by which there would be too many.
fn counted<'a>(scope: Scope, word: &'a str) -> Result<FewInputs, Stop<'a>>
    ensures { IfErr result IsOfWords }
{
    match input_count(scope) {
        Some(count) => {
            if count <= MOST_INPUTS {
                Ok(FewInputs { scope })
            } else {
                Err(Stop::Number(word))
            }
        }
        None => Err(Stop::Number(word)),
    }
}

/// The inputs of a scope. Where one has no values or no cells, its option that is there is told, and where there is none the missing one.
pub(crate) fn few_inputs<'a>(
    words: &ArgMatches<'a>,
    missing: &'static str,
) -> Result<FewInputs, Stop<'a>>
    ensures { IfErr result IsOfWords }
{
    let (cells, values) = (words.get_str(CELLS), words.get_str(VALUES));
    match (cells, values, words.get_str(PERMUTATIONS)) {
        (Some(cells), Some(values), None) => counted(scope_of(cells, values)?, values),
        (None, None, Some(word)) => counted(orders_of(word)?, word),
        (_, _, Some(_)) => Err(Stop::Number("--permutations")),
        (Some(_), None, None) => Err(Stop::Number("--cells")),
        (None, Some(_), None) => Err(Stop::Number("--values")),
        (None, None, None) => Err(Stop::Number(missing)),
    }
}

/// The file into which the first input that is told is written, if the command line has one. The name of standard input is none.
pub(crate) fn witness_of<'a>(words: &ArgMatches<'a>) -> Result<Option<&'a str>, Stop<'a>>
    ensures { IfErr result IsOfWords }
{
    match words.get_str(WITNESS) {
        Some("-") => Err(Stop::Number("--witness")),
        named => Ok(named),
    }
}

// The interval of a word, if there is one.
fn interval_of<'a>(word: &'a str) -> Result<Interval, Stop<'a>>
    ensures { IfErr result IsOfWords }
{
    match read_interval(word) {
        None => Err(Stop::Number(word)),
        Some((low, high)) => match Interval::of(low, high) {
            None => Err(Stop::Number(word)),
            Some(interval) => Ok(interval),
        },
    }
}

// The interval of the values, and all numbers where the command line has none.
fn values_of<'a>(words: &ArgMatches<'a>) -> Result<Interval, Stop<'a>>
    ensures { IfErr result IsOfWords }
{
    match words.get_str(VALUES) {
        None => Ok(Interval::all()),
        Some(word) => interval_of(word),
    }
}

// How many values an input has, if the command line says it.
fn cells_of<'a>(words: &ArgMatches<'a>) -> Result<Option<u32>, Stop<'a>>
    ensures { IfErr result IsOfWords }
{
    match words.get_str(CELLS) {
        None => Ok(None),
        Some(word) => Ok(Some(count_of(word, 0, MOST_CELLS)?)),
    }
}

/// The inputs for which a program is run together, and under which rule.
pub(crate) fn always_words<'a>(words: &ArgMatches<'a>) -> Result<AlwaysWords, Stop<'a>>
    ensures { IfErr result IsOfWords }
{
    let rule = rule_of(words)?;
    let cells = cells_of(words)?;
    let of = values_of(words)?;
    Ok(AlwaysWords { cells, of, rule })
}
