//! How something is run, by the options of a command line.

ghost use Rattle.std.specs.Prelude.{◌<◌, ◌^◌, IfOk, IfErr};
ghost use Rattle.std.specs.Option.{ForSome};
ghost use Rattle.command_requests.specs.Words.{IsOfWords};

use crate::names::{
    BOUND, BSP, COLUMNS, DRAW, FLOW, FORMAT, FROM, HTML, INPUT, LINES, LOCALS, MAP, MEMORY, ONLY,
    OUTCOME, QUIET, RANDOM, RESERVE, SCHEDULE, SECONDS, SEED, SHOW, SVG, TO, WORKERS,
};
use clap::ArgMatches;
use command_requests::{
    CostWords, Form, MeaningWords, Opening, RunWords, StepWords, SweepForm, SweepWords, TraceWords,
};
use drawn_kinds::{Bounds, DrawnKind, read_kind};
use memory_texts::Choice;
use program_texts::Stop;
use run_options::{MapChoice, Options, Reserve, read_map, read_number, read_pair};
use scopes::{Drawing, read_interval};

/// The number of an option, and 0 where the command has no such option.
pub(crate) fn number_of<'a>(words: &ArgMatches<'a>, option: &str) -> Result<u32, Stop<'a>>
    ensures { IfErr result IsOfWords }
{
    match words.get_str(option) {
        None => Ok(0),
        Some(word) => match read_number(word) {
            Some(number) => Ok(number),
            None => Err(Stop::Number(word)),
        },
    }
}

// The map, and the identity where the command has no such option.
fn map_of<'a>(words: &ArgMatches<'a>) -> Result<MapChoice, Stop<'a>>
    ensures { IfErr result IsOfWords }
{
    match words.get_str(MAP) {
        None => Ok(MapChoice::Identity),
        Some(word) => match read_map(word) {
            Some(map) => Ok(map),
            None => Err(Stop::Number(word)),
        },
    }
}

// The reserve, if the command line has one.
fn reserve_of<'a>(words: &ArgMatches<'a>) -> Result<Option<Reserve>, Stop<'a>>
    ensures { IfErr result IsOfWords }
{
    match words.get_str(RESERVE) {
        None => Ok(None),
        Some(word) => match read_pair(word) {
            Some((items, exchanges)) => Ok(Some(Reserve { items, exchanges })),
            None => Err(Stop::Number(word)),
        },
    }
}

// How many processors, workers or seconds, if the command line says it. There is at least 1.
fn count_of<'a>(words: &ArgMatches<'a>, option: &str) -> Result<Option<u32>, Stop<'a>>
    ensures some { IfOk result (λ count. ForSome count (λ q. 0 < q)) }
    ensures refused { IfErr result IsOfWords }
{
    match words.get_str(option) {
        None => Ok(None),
        Some(word) => match read_number(word) {
            Some(0) | None => Err(Stop::Number(word)),
            Some(count) => Ok(Some(count)),
        },
    }
}

/// What is told of the costs of a run, for so many workers too where the command line says it.
pub(crate) fn cost_words<'a>(words: &ArgMatches<'a>) -> Result<CostWords, Stop<'a>>
    ensures { IfErr result IsOfWords }
{
    let schedule = count_of(words, SCHEDULE)?;
    let workers = count_of(words, WORKERS)?;
    let lines = words.get_flag(LINES);
    Ok(CostWords {
        schedule,
        workers,
        lines,
    })
}

// Whether all of a run is told: as a picture, as a page or as JSON.
fn tells_of_all(words: &ArgMatches<'_>) -> bool {
    words.get_flag(SVG) || words.get_flag(HTML) || words.get_str(FORMAT) == Some("json")
}

// The names of which alone a run in words tells. Those of a flow say what is drawn (`choice_of`).
fn only_of<'a>(words: &ArgMatches<'a>) -> Result<Choice<'a>, Stop<'a>>
    ensures { IfErr result IsOfWords }
{
    match words.get_str(ONLY) {
        None => Ok(Choice::All),
        Some(_) if words.get_flag(FLOW) => Ok(Choice::All),
        Some(_) if tells_of_all(words) => Err(Stop::Number("--only")),
        Some(names) => Ok(Choice::Named(names)),
    }
}

// How they are told, of which two are refused together.
fn form_of(words: &ArgMatches<'_>) -> Form {
    if words.get_flag(SVG) {
        Form::Picture
    } else if words.get_flag(FLOW) {
        Form::Flow
    } else if words.get_flag(HTML) {
        Form::Page
    } else {
        Form::Words
    }
}

// The declarations that a flow is drawn of.
fn drawn_of<'a>(words: &ArgMatches<'a>) -> Choice<'a> {
    match words.get_str(ONLY) {
        Some(names) if words.get_flag(FLOW) => Choice::Named(names),
        _ => Choice::All,
    }
}

// The numbers of the first and of the last statement that are told. None has the number 0: from 1 to 0 none is told.
fn told_between<'a>(words: &ArgMatches<'a>) -> Result<(u32, u32), Stop<'a>>
    ensures { IfErr result IsOfWords }
{
    let from = number_of(words, FROM)?;
    let to = number_of(words, TO)?;
    if from > 1 && from > to {
        return Err(Stop::Number("--from"));
    }
    Ok((from, to))
}

/// Which statements of a run are told, and how.
pub(crate) fn step_words<'a>(words: &ArgMatches<'a>) -> Result<StepWords<'a>, Stop<'a>>
    ensures { IfErr result IsOfWords }
{
    let (from, to) = told_between(words)?;
    let only = only_of(words)?;
    Ok(StepWords {
        from,
        to,
        locals: words.get_flag(LOCALS),
        columns: words.get_flag(COLUMNS),
        only,
        form: form_of(words),
        drawn: drawn_of(words),
    })
}

/// The seed, and 1 where the command line has none.
pub(crate) fn seed_of<'a>(words: &ArgMatches<'a>) -> Result<u64, Stop<'a>>
    ensures narrow { IfOk result (λ seed. seed < 2 ^ 32) }
    ensures refused { IfErr result IsOfWords }
{
    match words.get_str(SEED) {
        None => Ok(1),
        Some(word) => match read_number(word) {
            Some(seed) => Ok(u64::from(seed)),
            None => Err(Stop::Number(word)),
        },
    }
}

// Numbers of an interval, by the seed.
fn drawing_of<'a>(words: &ArgMatches<'a>, interval: &'a str) -> Result<Opening<'a>, Stop<'a>>
    ensures { IfErr result IsOfWords }
{
    let seed = seed_of(words)?;
    match read_interval(interval) {
        Some((low, high)) => Ok(Opening::Drawn(Drawing { low, high, seed })),
        None => Err(Stop::Number(interval)),
    }
}

// The kind that a word names, of sorted numbers with the bounds that an interval gives. No other kind goes with one.
pub(crate) fn kind_of<'a>(word: &'a str, interval: Option<&'a str>) -> Result<DrawnKind, Stop<'a>>
    ensures { IfErr result IsOfWords }
{
    match (read_kind(word), interval) {
        (None, _) => Err(Stop::Number(word)),
        (Some(kind), None) => Ok(kind),
        (Some(DrawnKind::Sorted(_)), Some(interval)) => match read_interval(interval) {
            Some((low, high)) => Ok(DrawnKind::Sorted(Some(Bounds { low, high }))),
            None => Err(Stop::Number(interval)),
        },
        (Some(_), Some(_)) => Err(Stop::Number("--random")),
    }
}

// An input of a kind, by the seed.
fn kind_opening<'a>(words: &ArgMatches<'a>, word: &'a str) -> Result<Opening<'a>, Stop<'a>>
    ensures { IfErr result IsOfWords }
{
    let seed = seed_of(words)?;
    let kind = kind_of(word, words.get_str(RANDOM))?;
    Ok(Opening::OfKind(kind, seed))
}

// The option that is refused beside another way to say what the cells hold.
fn second_way(words: &ArgMatches<'_>) -> &'static str {
    if words.get_str(MEMORY).is_some() {
        "--memory"
    } else if words.get_str(RANDOM).is_some() {
        "--random"
    } else {
        "--draw"
    }
}

/// What the cells hold: an input, a memory, numbers that are drawn or an input of a kind, and no two of these.
pub(crate) fn opening_of<'a>(words: &ArgMatches<'a>) -> Result<Opening<'a>, Stop<'a>>
    ensures { IfErr result IsOfWords }
{
    let (input, memory) = (words.get_str(INPUT), words.get_str(MEMORY));
    let (random, kind) = (words.get_str(RANDOM), words.get_str(DRAW));
    if random.is_none() && kind.is_none() && words.get_str(SEED).is_some() {
        return Err(Stop::Number("--seed"));
    }
    match (input, memory, random, kind) {
        (None, None, None, None) => Ok(Opening::Zeros),
        (Some(name), None, None, None) => Ok(Opening::Input(name)),
        (None, Some(name), None, None) => Ok(Opening::Memory(name)),
        (None, None, Some(interval), None) => drawing_of(words, interval),
        (None, None, _, Some(word)) => kind_opening(words, word),
        (_, _, _, _) => Err(Stop::Number(second_way(words))),
    }
}

/// Of what memory is written.
pub(crate) fn choice_of<'a>(words: &ArgMatches<'a>) -> Result<Choice<'a>, Stop<'a>>
    ensures { IfErr result IsOfWords }
{
    match (words.get_str(SHOW), words.get_flag(QUIET)) {
        (None, false) => Ok(Choice::All),
        (None, true) => Ok(Choice::Nothing),
        (Some(names), false) => Ok(Choice::Named(names)),
        (Some(_), true) => Err(Stop::Number("--quiet")),
    }
}

// What an exchange costs, if that is asked for.
fn rates_of<'a>(words: &ArgMatches<'a>) -> Result<Option<(u32, u32)>, Stop<'a>>
    ensures { IfErr result IsOfWords }
{
    match words.get_str(BSP) {
        None => Ok(None),
        Some(word) => match read_pair(word) {
            Some(rates) => Ok(Some(rates)),
            None => Err(Stop::Number(word)),
        },
    }
}

/// What is told of exchanges. A picture and JSON have the lines too.
pub(crate) fn trace_words<'a>(words: &ArgMatches<'a>) -> Result<TraceWords, Stop<'a>>
    ensures { IfErr result IsOfWords }
{
    let rates = rates_of(words)?;
    let drawn = words.get_flag(SVG);
    let lines = words.get_flag(LINES) || drawn || words.get_str(FORMAT) == Some("json");
    Ok(TraceWords {
        outcome: words.get_flag(OUTCOME),
        lines,
        rates,
        drawn,
    })
}

/// How a program is run by its definition.
pub(crate) fn meaning_words<'a>(words: &ArgMatches<'a>) -> Result<MeaningWords<'a>, Stop<'a>>
    ensures { IfErr result IsOfWords }
{
    let bound = number_of(words, BOUND)?;
    let seconds = count_of(words, SECONDS)?;
    let opening = opening_of(words)?;
    Ok(MeaningWords {
        opening,
        bound,
        seconds,
    })
}

/// How code is run by workers.
pub(crate) fn run_words<'a>(words: &ArgMatches<'a>) -> Result<RunWords<'a>, Stop<'a>>
    ensures { IfErr result IsOfWords }
{
    let bound = number_of(words, BOUND)?;
    let workers = number_of(words, WORKERS)?;
    let map = map_of(words)?;
    let reserve = reserve_of(words)?;
    let opening = opening_of(words)?;
    Ok(RunWords {
        opening,
        options: Options {
            workers,
            map,
            bound,
        },
        reserve,
    })
}

// A table isn't drawn.
fn sweep_form(words: &ArgMatches<'_>) -> SweepForm {
    if words.get_flag(SVG) {
        SweepForm::Picture
    } else if words.get_str(FORMAT) == Some("csv") {
        SweepForm::Table
    } else {
        SweepForm::Words
    }
}

/// The sizes that a word gives, and how a program is run at each.
pub(crate) fn sweep_words<'a>(
    words: &ArgMatches<'a>,
    word: &'a str,
) -> Result<SweepWords<'a>, Stop<'a>>
    ensures { IfErr result IsOfWords }
{
    let bound = number_of(words, BOUND)?;
    let workers = count_of(words, WORKERS)?;
    let opening = opening_of(words)?;
    Ok(SweepWords {
        word,
        opening,
        bound,
        workers,
        form: sweep_form(words),
    })
}
