//! A command line, read.

ghost use Rattle.std.specs.Prelude.{◌≡◌, IfErr, map};
ghost use Rattle.std.specs.String.{string_bytes};
ghost use Rattle.command_requests.specs.Words.{AsksForVersion, IsOfWords};

use crate::explore_reading::scope_words;
use crate::grammar::grammar;
use crate::names::{
    BOUND, BSP, CHECK, ENSURE, FILE, FILES, FLOW, FORMAT, HTML, LINES, LISTING_FILE, OUTCOME,
    SCHEDULE, SECOND, SECONDS, SIZE, STDOUT, SVG, SWEEP, TO, WHERE, WORD,
};
use crate::pair_reading::{graded_words, pair_words};
use crate::refusing::unmatched;
use crate::run_reading::{
    choice_of, cost_words, meaning_words, number_of, opening_of, run_words, step_words,
    sweep_words, trace_words,
};
use crate::scope_reading::{always_words, witness_of};
use clap::ArgMatches;
use command_requests::{
    ArrangeForm, ArrangeWords, GradeWords, PairWords, ProgramFile, Request, SizeWord,
    SpecificationFiles, asks_for_version,
};
use help::subject_of;
use program_texts::{Refusal, Stop};
use std::alloc::{AllocError, Global};

// How something is told. Whether it is JSON `asks_for_json` says, and whether it is in the lines of editors `asks_for_gnu`.
#[derive(Clone, Copy, PartialEq, Eq)]
enum Format {
    Text,
    Json,
    Csv,
    Gnu,
}

fn format_of<'a>(words: &ArgMatches<'a>) -> Result<Format, Stop<'a>>
    ensures { IfErr result IsOfWords }
{
    match words.get_str(FORMAT) {
        None | Some("text") => Ok(Format::Text),
        Some("json") => Ok(Format::Json),
        Some("csv") => Ok(Format::Csv),
        Some("gnu") => Ok(Format::Gnu),
        Some(word) => Err(Stop::Number(word)),
    }
}

// What is done: a text is checked, something is run, or is run at several sizes.
#[derive(Clone, Copy, PartialEq, Eq)]
enum Over {
    Text,
    Run,
    Sizes,
}

// Nothing is drawn or made a page in another format than text, and a page isn't drawn.
fn check_drawn<'a>(words: &ArgMatches<'a>, format: Format) -> Result<(), Stop<'a>>
    ensures { IfErr result IsOfWords }
{
    let svg = words.get_flag(SVG);
    if words.get_flag(HTML) && (format != Format::Text || svg) {
        return Err(Stop::Number("--html"));
    }
    if format != Format::Text && svg {
        return Err(Stop::Number("--svg"));
    }
    if words.get_flag(FLOW) && (format != Format::Text || svg || words.get_flag(HTML)) {
        return Err(Stop::Number("--flow"));
    }
    if words.get_flag(OUTCOME) && svg {
        return Err(Stop::Number("--outcome"));
    }
    if words.get_str(BSP).is_some() && svg {
        return Err(Stop::Number("--bsp"));
    }
    Ok(())
}

// Of a sweep alone there are values separated by commas, of a check alone lines of editors, and nothing is drawn in them.
fn check_format<'a>(words: &ArgMatches<'a>, over: Over) -> Result<(), Stop<'a>>
    ensures { IfErr result IsOfWords }
{
    let format = format_of(words)?;
    check_drawn(words, format)?;
    if format == Format::Csv && over != Over::Sizes {
        return Err(Stop::Number("csv"));
    }
    if format == Format::Gnu && over != Over::Text {
        return Err(Stop::Number("gnu"));
    }
    Ok(())
}

// The words that give sizes, in their order.
fn size_words<'a>(
    alloc: Global,
    matches: &ArgMatches<'a>,
) -> Result<Vec<SizeWord<'a>>, AllocError> {
    let mut sizes = Vec::new(alloc);
    if let Some(words) = matches.get_strs(SIZE) {
        for word in words {
            sizes.push(SizeWord::Given(*word))?;
        }
    }
    Ok(sizes)
}

fn file_at<'a>(
    alloc: Global,
    matches: &ArgMatches<'a>,
    place: &str,
) -> Result<ProgramFile<'a>, AllocError> {
    let name = matches.get_str(place).unwrap_or("");
    let sizes = size_words(alloc, matches)?;
    Ok(ProgramFile { name, sizes })
}

// The file that an option names, if the command line has it.
fn file_behind<'a>(
    alloc: Global,
    matches: &ArgMatches<'a>,
    option: &str,
) -> Result<Option<ProgramFile<'a>>, AllocError> {
    match matches.get_str(option) {
        None => Ok(None),
        Some(name) => {
            let sizes = size_words(alloc, matches)?;
            Ok(Some(ProgramFile { name, sizes }))
        }
    }
}

// The programs by which inputs count and results are right, with the same sizes.
fn specification_files<'a>(
    alloc: Global,
    matches: &ArgMatches<'a>,
) -> Result<SpecificationFiles<'a>, AllocError> {
    let precondition = file_behind(alloc, matches, WHERE)?;
    let postcondition = file_behind(alloc, matches, ENSURE)?;
    Ok(SpecificationFiles {
        precondition,
        postcondition,
    })
}

fn file_of<'a>(alloc: Global, matches: &ArgMatches<'a>) -> Result<ProgramFile<'a>, AllocError> {
    file_at(alloc, matches, FILE)
}

fn asked_check<'a>(alloc: Global, matches: &ArgMatches<'a>) -> Result<Request<'a>, Stop<'a>>
    ensures { IfErr result IsOfWords }
{
    check_format(matches, Over::Text)?;
    Ok(Request::Check(file_of(alloc, matches)?))
}

fn asked_expansion<'a>(alloc: Global, matches: &ArgMatches<'a>) -> Result<Request<'a>, Stop<'a>>
    ensures { IfErr result IsOfWords }
{
    check_format(matches, Over::Run)?;
    Ok(Request::Expand(file_of(alloc, matches)?))
}

// The files whose texts are laid out, which take no sizes.
fn files_of<'a>(
    alloc: Global,
    matches: &ArgMatches<'a>,
) -> Result<Vec<ProgramFile<'a>>, AllocError> {
    let mut files = Vec::new(alloc);
    if let Some(names) = matches.get_strs(FILES) {
        for name in names {
            files.push(ProgramFile {
                name: *name,
                sizes: Vec::new(alloc),
            })?;
        }
    }
    Ok(files)
}

// Where both are asked for, files are named and no text is written.
fn asked_layout<'a>(alloc: Global, matches: &ArgMatches<'a>) -> Result<Request<'a>, Stop<'a>>
    ensures { IfErr result IsOfWords }
{
    let form = if matches.get_flag(CHECK) {
        ArrangeForm::Checked
    } else if matches.get_flag(STDOUT) {
        ArrangeForm::Shown
    } else {
        ArrangeForm::InPlace
    };
    let files = files_of(alloc, matches)?;
    Ok(Request::Arrange(ArrangeWords { files, form }))
}

fn asked_plan<'a>(alloc: Global, matches: &ArgMatches<'a>) -> Result<Request<'a>, Stop<'a>>
    ensures { IfErr result IsOfWords }
{
    check_format(matches, Over::Run)?;
    Ok(Request::Plan(file_of(alloc, matches)?))
}

fn asked_meaning<'a>(alloc: Global, matches: &ArgMatches<'a>) -> Result<Request<'a>, Stop<'a>>
    ensures { IfErr result IsOfWords }
{
    check_format(matches, Over::Run)?;
    let words = meaning_words(matches)?;
    let shown = choice_of(matches)?;
    let file = file_of(alloc, matches)?;
    Ok(Request::Meaning { file, words, shown })
}

fn asked_steps<'a>(alloc: Global, matches: &ArgMatches<'a>) -> Result<Request<'a>, Stop<'a>>
    ensures { IfErr result IsOfWords }
{
    check_format(matches, Over::Run)?;
    let words = meaning_words(matches)?;
    let steps = step_words(matches)?;
    let file = file_of(alloc, matches)?;
    Ok(Request::Steps { file, words, steps })
}

fn asked_rules<'a>(alloc: Global, matches: &ArgMatches<'a>) -> Result<Request<'a>, Stop<'a>>
    ensures { IfErr result IsOfWords }
{
    check_format(matches, Over::Run)?;
    let bound = number_of(matches, BOUND)?;
    let opening = opening_of(matches)?;
    let file = file_of(alloc, matches)?;
    Ok(Request::Rules {
        file,
        opening,
        bound,
    })
}

fn asked_run<'a>(alloc: Global, matches: &ArgMatches<'a>) -> Result<Request<'a>, Stop<'a>>
    ensures { IfErr result IsOfWords }
{
    check_format(matches, Over::Run)?;
    let words = run_words(matches)?;
    let shown = choice_of(matches)?;
    let file = file_of(alloc, matches)?;
    Ok(Request::Run { file, words, shown })
}

fn asked_trace<'a>(alloc: Global, matches: &ArgMatches<'a>) -> Result<Request<'a>, Stop<'a>>
    ensures { IfErr result IsOfWords }
{
    check_format(matches, Over::Run)?;
    let words = run_words(matches)?;
    let trace = trace_words(matches)?;
    let file = file_of(alloc, matches)?;
    Ok(Request::Trace { file, words, trace })
}

// Costs at several sizes: neither rounds nor lines are told of them, and they have the time that they take.
fn asked_sweep<'a>(
    alloc: Global,
    word: &'a str,
    matches: &ArgMatches<'a>,
) -> Result<Request<'a>, Stop<'a>>
    ensures { IfErr result IsOfWords }
{
    if matches.get_str(SCHEDULE).is_some() {
        return Err(Stop::Number("--schedule"));
    }
    if matches.get_flag(LINES) {
        return Err(Stop::Number("--lines"));
    }
    if matches.get_str(SECONDS).is_some() {
        return Err(Stop::Number("--seconds"));
    }
    check_format(matches, Over::Sizes)?;
    let words = sweep_words(matches, word)?;
    let file = file_of(alloc, matches)?;
    Ok(Request::Sweep { file, words })
}

// Costs at one size aren't drawn.
fn asked_cost<'a>(alloc: Global, matches: &ArgMatches<'a>) -> Result<Request<'a>, Stop<'a>>
    ensures { IfErr result IsOfWords }
{
    if matches.get_flag(SVG) {
        return Err(Stop::Number("--svg"));
    }
    check_format(matches, Over::Run)?;
    let words = meaning_words(matches)?;
    let costs = cost_words(matches)?;
    let file = file_of(alloc, matches)?;
    Ok(Request::Cost { file, words, costs })
}

fn asked_costs<'a>(alloc: Global, matches: &ArgMatches<'a>) -> Result<Request<'a>, Stop<'a>>
    ensures { IfErr result IsOfWords }
{
    match matches.get_str(SWEEP) {
        Some(word) => asked_sweep(alloc, word, matches),
        None => asked_cost(alloc, matches),
    }
}

fn asked_exploration<'a>(alloc: Global, matches: &ArgMatches<'a>) -> Result<Request<'a>, Stop<'a>>
    ensures { IfErr result IsOfWords }
{
    check_format(matches, Over::Run)?;
    let scope = scope_words(matches)?;
    let bound = number_of(matches, BOUND)?;
    let witness = witness_of(matches)?;
    let file = file_of(alloc, matches)?;
    let specification = specification_files(alloc, matches)?;
    Ok(Request::Exploration {
        file,
        specification,
        scope,
        bound,
        witness,
    })
}

fn asked_always<'a>(alloc: Global, matches: &ArgMatches<'a>) -> Result<Request<'a>, Stop<'a>>
    ensures { IfErr result IsOfWords }
{
    check_format(matches, Over::Run)?;
    let words = always_words(matches)?;
    let bound = number_of(matches, BOUND)?;
    let file = file_of(alloc, matches)?;
    Ok(Request::Always { file, words, bound })
}

// Two programs, with the same sizes.
fn asked_pair<'a>(alloc: Global, matches: &ArgMatches<'a>) -> Result<Request<'a>, Stop<'a>>
    ensures { IfErr result IsOfWords }
{
    check_format(matches, Over::Run)?;
    let first = file_of(alloc, matches)?;
    let second = file_at(alloc, matches, SECOND)?;
    let precondition = file_behind(alloc, matches, WHERE)?;
    let words = pair_words(alloc, matches, first, second, precondition)?;
    Ok(Request::Pair(words))
}

// The names of programs that are graded, in alphabetical order.
fn graded_names<'a>(alloc: Global, matches: &ArgMatches<'a>) -> Result<Vec<&'a str>, AllocError> {
    let mut names = Vec::new(alloc);
    if let Some(words) = matches.get_strs(SECOND) {
        for word in words {
            names.push(*word)?;
        }
    }
    names.sort()?;
    Ok(names)
}

// The words by which one of them is compared with the first program, with the same sizes.
fn graded_pair<'a>(
    alloc: Global,
    matches: &ArgMatches<'a>,
    name: &'a str,
) -> Result<PairWords<'a>, Stop<'a>>
    ensures { IfErr result IsOfWords }
{
    let first = file_of(alloc, matches)?;
    let sizes = size_words(alloc, matches)?;
    let precondition = file_behind(alloc, matches, WHERE)?;
    graded_words(
        alloc,
        matches,
        first,
        ProgramFile { name, sizes },
        precondition,
    )
}

// Programs that are graded by a first one.
fn asked_grade<'a>(alloc: Global, matches: &ArgMatches<'a>) -> Result<Request<'a>, Stop<'a>>
    ensures { IfErr result IsOfWords }
{
    check_format(matches, Over::Run)?;
    let mut pairs = Vec::new(alloc);
    for name in graded_names(alloc, matches)? {
        let Ok(()) = pairs.push(graded_pair(alloc, matches, name)?) else {
            return Err(Stop::Refused(Refusal::OutOfMemory));
        };
    }
    let reference = file_of(alloc, matches)?;
    Ok(Request::Grade(GradeWords { reference, pairs }))
}

fn asked_program_in_c<'a>(alloc: Global, matches: &ArgMatches<'a>) -> Result<Request<'a>, Stop<'a>>
    ensures { IfErr result IsOfWords }
{
    check_format(matches, Over::Run)?;
    match matches.get_str(TO) {
        None | Some("mpi") => Ok(Request::Export(file_of(alloc, matches)?)),
        Some("c") | Some("openmp") => Ok(Request::PlainC(file_of(alloc, matches)?)),
        Some(word) => Err(Stop::Number(word)),
    }
}

// Whether a listing, which has no sizes, is asked for in the form that there is of one.
fn fits_listing(matches: &ArgMatches<'_>) -> bool {
    matches.get_strs(SIZE).is_none() && matches!(matches.get_str(TO), None | Some("mpi"))
}

// A program or a listing, in C.
fn asked_export<'a>(alloc: Global, matches: &ArgMatches<'a>) -> Result<Request<'a>, Stop<'a>>
    ensures { IfErr result IsOfWords }
{
    let (file, listing) = (matches.get_str(FILE), matches.get_str(LISTING_FILE));
    match (file, listing) {
        (Some(_), None) => asked_program_in_c(alloc, matches),
        (None, Some(file)) => {
            if !fits_listing(matches) {
                return Err(Stop::Number("--listing"));
            }
            Ok(Request::ListingInC { file })
        }
        (_, _) => Err(Stop::Number("--listing")),
    }
}

fn asked_listing<'a>(matches: &ArgMatches<'a>) -> Result<Request<'a>, Stop<'a>>
    ensures { IfErr result IsOfWords }
{
    check_format(matches, Over::Run)?;
    let words = run_words(matches)?;
    let shown = choice_of(matches)?;
    let file = matches.get_str(FILE).unwrap_or("");
    Ok(Request::Listing { file, words, shown })
}

fn asked_subject<'a>(matches: &ArgMatches<'a>) -> Result<Request<'a>, Stop<'a>>
    ensures { IfErr result IsOfWords }
{
    // Without a word all is meant, as the empty word does.
    let word = matches.get_str(WORD).unwrap_or("");
    match subject_of(word) {
        Some(subject) => Ok(Request::Explanation(subject)),
        None => Err(Stop::Number(word)),
    }
}

/// Reads the words behind the program's name.
pub(crate) fn read_words<'a>(alloc: Global, words: &'a [String]) -> Result<Request<'a>, Stop<'a>>
    // The word for the version alone asks for it.
    ensures version { AsksForVersion (map string_bytes words.now) → result ≡ Ok Request.Version }
    // Words are refused in their parser's words, by the word that is wrong, or for want of memory, and for nothing
    // else.
    ensures refused { IfErr result IsOfWords }
{
    // No contract says what the parser makes of these words.
    if asks_for_version(words) {
        return Ok(Request::Version);
    }
    let matches = match grammar(alloc)?.try_get_matches_from(words) {
        Ok(matches) => matches,
        Err(error) => return unmatched(alloc, words, error),
    };
    match matches.subcommand() {
        Some(("check", inner)) => asked_check(alloc, inner),
        Some(("plan", inner)) => asked_plan(alloc, inner),
        Some(("meaning", inner)) => asked_meaning(alloc, inner),
        Some(("cost", inner)) => asked_costs(alloc, inner),
        Some(("steps", inner)) => asked_steps(alloc, inner),
        Some(("rules", inner)) => asked_rules(alloc, inner),
        Some(("run", inner)) => asked_run(alloc, inner),
        Some(("trace", inner)) => asked_trace(alloc, inner),
        Some(("explore", inner)) => asked_exploration(alloc, inner),
        Some(("always", inner)) => asked_always(alloc, inner),
        Some(("compare", inner)) => asked_pair(alloc, inner),
        Some(("grade", inner)) => asked_grade(alloc, inner),
        Some(("expand", inner)) => asked_expansion(alloc, inner),
        Some(("fmt", inner)) => asked_layout(alloc, inner),
        Some(("export", inner)) => asked_export(alloc, inner),
        Some(("exec", inner)) => asked_listing(inner),
        Some((_, inner)) => asked_subject(inner),
        None => Err(Stop::Number("")),
    }
}
