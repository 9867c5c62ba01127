//! The inputs on which a program is run, by the options of a command line.

ghost use Rattle.std.specs.Prelude.{IfErr};
ghost use Rattle.command_requests.specs.Words.{IsOfWords};

use crate::names::{DRAW, SHRINK, WORKERS};
use crate::pair_reading::{are_drawn, are_whole, drawn_words, kind_words, scope_option};
use crate::run_reading::number_of;
use crate::scope_reading::{few_inputs, rule_of};
use clap::ArgMatches;
use command_requests::{ExploredInputs, ScopeWords};
use program_texts::Stop;

// Inputs that are drawn. None of these is made smaller: that need not be of the kind.
fn drawn_inputs<'a>(words: &ArgMatches<'a>) -> Result<ExploredInputs, Stop<'a>>
    ensures { IfErr result IsOfWords }
{
    if are_whole(words) {
        return Err(Stop::Number(scope_option(words)));
    }
    if words.get_flag(SHRINK) {
        return Err(Stop::Number("--shrink"));
    }
    match words.get_str(DRAW) {
        Some(kind) => Ok(ExploredInputs::OfKind(kind_words(words, kind)?)),
        None => Ok(ExploredInputs::Drawn(drawn_words(words)?)),
    }
}

// Those of a scope, where none are drawn.
fn explored_inputs<'a>(words: &ArgMatches<'a>) -> Result<ExploredInputs, Stop<'a>>
    ensures { IfErr result IsOfWords }
{
    if are_drawn(words) {
        return drawn_inputs(words);
    }
    Ok(ExploredInputs::Scope {
        few: few_inputs(words, "--cells")?,
        shrink: words.get_flag(SHRINK),
    })
}

/// The inputs on which a program is run, under which rule, and by how many workers; and whether those that are told are made smaller.
pub(crate) fn scope_words<'a>(words: &ArgMatches<'a>) -> Result<ScopeWords, Stop<'a>>
    ensures { IfErr result IsOfWords }
{
    let rule = rule_of(words)?;
    let workers = number_of(words, WORKERS)?;
    let inputs = explored_inputs(words)?;
    Ok(ScopeWords {
        inputs,
        rule,
        workers,
    })
}
