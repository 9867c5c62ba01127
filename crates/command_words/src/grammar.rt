//! The grammar of command lines, for the parser, by the tables of subcommands and options.

use crate::names::FILES;
use crate::options::{CommandOption, Follows, options_of};
use crate::subcommands::{Place, SUBCOMMANDS, Subcommand};
use clap::{Arg, ArgAction, Command};
use command_requests::VERSION;
use std::alloc::{AllocError, Global};

// What the parser is told of an option.
fn option<'a>(alloc: Global, words: &CommandOption) -> Arg<'a> {
    let arg = Arg::new(alloc, words.name)
        .long(words.name)
        .help(words.help);
    match words.follows {
        Follows::Nothing => arg.action(ArgAction::SetTrue),
        Follows::Word(name) => arg.value_name(name),
        Follows::WordOr(name, default) => arg.value_name(name).default_value(default),
        Follows::Signed(name) => arg.value_name(name).allow_hyphen_values(true),
        Follows::Words(name) => arg.value_name(name).action(ArgAction::Append),
    }
}

// What the parser is told of a word in its place.
fn argument<'a>(alloc: Global, words: &Place) -> Arg<'a> {
    let mut arg = Arg::new(alloc, words.name).help(words.help);
    if words.name == FILES {
        arg = arg.value_name("FILE");
    }
    if words.is_many {
        arg = arg.num_args(1..).action(ArgAction::Append);
    }
    if words.is_required {
        arg = arg.required(true);
    }
    arg
}

fn with_places<'a>(
    alloc: Global,
    command: Command<'a>,
    places: &[Place],
) -> Result<Command<'a>, AllocError> {
    let mut command = command;
    for place in places {
        command = command.arg(argument(alloc, place))?;
    }
    Ok(command)
}

fn with_options<'a>(
    alloc: Global,
    command: Command<'a>,
    choices: &[CommandOption],
) -> Result<Command<'a>, AllocError> {
    let mut command = command;
    for choice in choices {
        command = command.arg(option(alloc, choice))?;
    }
    Ok(command)
}

fn subcommand<'a>(alloc: Global, words: &Subcommand) -> Result<Command<'a>, AllocError> {
    let command = Command::new(alloc, words.name)
        .about(words.about)
        .after_help(words.example);
    let mut command = with_places(alloc, command, words.places)?;
    for group in words.groups {
        command = with_options(alloc, command, options_of(*group))?;
    }
    Ok(command)
}

/// The subcommands, their options and the help of each.
pub(crate) fn grammar<'a>(alloc: Global) -> Result<Command<'a>, AllocError> {
    let mut command = Command::new(alloc, "pramc")
        .about("Runs programs of a parallel random access machine")
        .after_help("Example: pramc run examples/sum.pram\nMore: pramc explain")
        .no_binary_name(true)
        .subcommand_required(true)
        .version(VERSION)
        .bin_name("pramc")?;
    for words in SUBCOMMANDS {
        command = command.subcommand(subcommand(alloc, words)?)?;
    }
    Ok(command)
}
