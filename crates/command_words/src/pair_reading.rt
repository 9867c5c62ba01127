//! Two programs on the same inputs, by the options of a command line.

ghost use Rattle.std.specs.Prelude.{IfErr};
ghost use Rattle.command_requests.specs.Words.{IsOfWords};

use crate::names::{
    BOUND, CELLS, COUNT, DRAW, INPUT, ONLY, PERMUTATIONS, PROCS_AT_MOST, RANDOM, SEED,
    TIME_AT_MOST, VALUES, WORK_AT_MOST,
};
use crate::run_reading::{kind_of, number_of, seed_of};
use crate::scope_reading::{count_of, few_inputs, rule_of};
use clap::ArgMatches;
use command_requests::{
    DrawnWords, InputFile, InputWords, KindWords, MOST_CELLS, MOST_DRAWN, PairWords, ProgramFile,
};
use memory_texts::Choice;
use program_texts::Stop;
use scopes::{Drawing, read_interval};
use std::alloc::{AllocError, Global};

// What is told where a call has none of the ways to give inputs, or files and another one.
const INPUTS: &str = "--input";

fn input_files<'a>(
    alloc: Global,
    words: &ArgMatches<'a>,
) -> Result<Vec<InputFile<'a>>, AllocError> {
    let mut files = Vec::new(alloc);
    if let Some(names) = words.get_strs(INPUT) {
        for name in names {
            files.push(InputFile { name: *name })?;
        }
    }
    Ok(files)
}

// How many cells are drawn, where the call says so.
fn drawn_cells<'a>(words: &ArgMatches<'a>) -> Result<Option<u32>, Stop<'a>>
    ensures { IfErr result IsOfWords }
{
    match words.get_str(CELLS) {
        None => Ok(None),
        Some(word) => Ok(Some(count_of(word, 0, MOST_CELLS)?)),
    }
}

// Inputs of this interval, as many as that.
fn drawn_of<'a>(
    words: &ArgMatches<'a>,
    interval: &'a str,
    word: &'a str,
) -> Result<DrawnWords, Stop<'a>>
    ensures { IfErr result IsOfWords }
{
    let seed = seed_of(words)?;
    let count = count_of(word, 1, MOST_DRAWN)?;
    let cells = drawn_cells(words)?;
    match read_interval(interval) {
        Some((low, high)) => Ok(DrawnWords {
            drawing: Drawing { low, high, seed },
            cells,
            count,
        }),
        None => Err(Stop::Number(interval)),
    }
}

// Inputs of this kind, as many as that.
fn kind_of_count<'a>(
    words: &ArgMatches<'a>,
    kind: &'a str,
    word: &'a str,
) -> Result<KindWords, Stop<'a>>
    ensures { IfErr result IsOfWords }
{
    let seed = seed_of(words)?;
    let count = count_of(word, 1, MOST_DRAWN)?;
    let cells = drawn_cells(words)?;
    let kind = kind_of(kind, words.get_str(RANDOM))?;
    Ok(KindWords {
        kind,
        seed,
        cells,
        count,
    })
}

/// Inputs of this kind that are drawn.
pub(crate) fn kind_words<'a>(words: &ArgMatches<'a>, kind: &'a str) -> Result<KindWords, Stop<'a>>
    ensures { IfErr result IsOfWords }
{
    match words.get_str(COUNT) {
        Some(word) => kind_of_count(words, kind, word),
        None => Err(Stop::Number("--draw")),
    }
}

/// Inputs that are drawn from an interval. Where an option is missing, one that is there is told.
pub(crate) fn drawn_words<'a>(words: &ArgMatches<'a>) -> Result<DrawnWords, Stop<'a>>
    ensures { IfErr result IsOfWords }
{
    match (words.get_str(RANDOM), words.get_str(COUNT)) {
        (Some(interval), Some(word)) => drawn_of(words, interval, word),
        (Some(_), None) => Err(Stop::Number("--random")),
        (None, Some(_)) => Err(Stop::Number("--count")),
        (None, None) => Err(Stop::Number("--seed")),
    }
}

/// Whether one of the options is there by which inputs are drawn.
pub(crate) fn are_drawn(words: &ArgMatches<'_>) -> bool {
    let is_seeded = words.get_str(COUNT).is_some() || words.get_str(SEED).is_some();
    is_seeded || words.get_str(RANDOM).is_some() || words.get_str(DRAW).is_some()
}

/// Whether one is there that says all inputs of a scope.
pub(crate) fn are_whole(words: &ArgMatches<'_>) -> bool {
    words.get_str(VALUES).is_some() || words.get_str(PERMUTATIONS).is_some()
}

/// The option of a scope that is there beside inputs that are drawn.
pub(crate) fn scope_option(words: &ArgMatches<'_>) -> &'static str {
    if words.get_str(PERMUTATIONS).is_some() {
        "--permutations"
    } else {
        "--values"
    }
}

// One way to give inputs, and no two.
fn input_words<'a>(alloc: Global, words: &ArgMatches<'a>) -> Result<InputWords<'a>, Stop<'a>>
    ensures { IfErr result IsOfWords }
{
    let is_of_files = words.get_strs(INPUT).is_some();
    let is_drawn = are_drawn(words);
    let is_scope = are_whole(words) || (words.get_str(CELLS).is_some() && !is_drawn);
    match (is_of_files, is_scope, is_drawn) {
        (true, false, false) => Ok(InputWords::Files(input_files(alloc, words)?)),
        (false, true, false) => Ok(InputWords::Scope(few_inputs(words, INPUTS)?)),
        (false, false, true) => match words.get_str(DRAW) {
            Some(kind) => Ok(InputWords::OfKind(kind_words(words, kind)?)),
            None => Ok(InputWords::Drawn(drawn_words(words)?)),
        },
        (false, true, true) => Err(Stop::Number(scope_option(words))),
        (_, _, _) => Err(Stop::Number(INPUTS)),
    }
}

/// On which inputs the programs of these two files are run, of those that the precondition's says count, and what of their runs is compared.
pub(crate) fn pair_words<'a>(
    alloc: Global,
    words: &ArgMatches<'a>,
    first: ProgramFile<'a>,
    second: ProgramFile<'a>,
    precondition: Option<ProgramFile<'a>>,
) -> Result<PairWords<'a>, Stop<'a>>
    ensures { IfErr result IsOfWords }
{
    let bound = number_of(words, BOUND)?;
    let inputs = input_words(alloc, words)?;
    let only = match words.get_str(ONLY) {
        None => Choice::All,
        Some(names) => Choice::Named(names),
    };
    Ok(PairWords {
        first,
        second,
        precondition,
        inputs,
        only,
        most_time: words.get_str(TIME_AT_MOST),
        most_work: words.get_str(WORK_AT_MOST),
        most_procs: None,
        under: None,
        is_graded: false,
        bound,
    })
}

/// The same, where the second program is graded by the first.
pub(crate) fn graded_words<'a>(
    alloc: Global,
    words: &ArgMatches<'a>,
    first: ProgramFile<'a>,
    second: ProgramFile<'a>,
    precondition: Option<ProgramFile<'a>>,
) -> Result<PairWords<'a>, Stop<'a>>
    ensures { IfErr result IsOfWords }
{
    let under = rule_of(words)?;
    let mut pair = pair_words(alloc, words, first, second, precondition)?;
    pair.under = under;
    pair.most_procs = words.get_str(PROCS_AT_MOST);
    pair.is_graded = true;
    Ok(pair)
}
