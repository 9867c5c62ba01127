//! What is meant by words that the parser doesn't take.

use crate::names::{INPUT, RANDOM, SIZE, VALUES};
use crate::options::options_of;
use crate::subcommands::SUBCOMMANDS;
use command_requests::{write_word_fault, wrong_option};
use std::alloc::{AllocError, Global};
use text_out::Buffer;

// How the parser's line begins, and ends, about a word that it doesn't take.
const UNEXPECTED: &str = "error: unexpected argument '";

const FOUND: &str = "' found";

/// The word, if a line of the parser's says that it doesn't take it.
pub(crate) fn unexpected(line: &str) -> Option<&str> {
    line.strip_prefix(UNEXPECTED)?.strip_suffix(FOUND)
}

fn are_digits(word: &str) -> bool {
    !word.is_empty() && word.bytes().all(|byte| byte.is_ascii_digit())
}

fn is_negative(word: &str) -> bool {
    match word.strip_prefix("-") {
        Some(digits) => are_digits(digits),
        None => false,
    }
}

fn is_number(word: &str) -> bool {
    are_digits(word) || is_negative(word)
}

// Whether a word is the option of this name.
fn is_option(word: &str, name: &str) -> bool {
    match word.strip_prefix("--") {
        Some(rest) => rest == name,
        None => false,
    }
}

// An option with the two words behind it, as they are meant to be one: `--size n=3` for `--size n 3`, `--values 1..8` for `--values 1 8`.
fn joined(
    alloc: Global,
    option: &str,
    first: &str,
    second: &str,
) -> Result<Option<String>, AllocError> {
    if is_option(option, SIZE) && !first.contains("=") && are_digits(second) {
        return Ok(Some(format!(in alloc; "{option} {first}={second}")?));
    }
    let is_interval = is_option(option, VALUES) || is_option(option, RANDOM);
    if is_interval && is_number(first) && is_number(second) {
        return Ok(Some(format!(in alloc; "{option} {first}..{second}")?));
    }
    Ok(None)
}

// The first such option of a call.
fn joined_in(alloc: Global, words: &[String]) -> Result<Option<String>, AllocError> {
    let (mut option, mut first) = ("", "");
    for word in words {
        let second = word.as_str();
        if let Some(meant) = joined(alloc, option, first, second)? {
            return Ok(Some(meant));
        }
        option = first;
        first = second;
    }
    Ok(None)
}

// Whether a command takes an input.
fn takes_input(command: &str) -> bool {
    for words in SUBCOMMANDS {
        if words.name == command {
            for group in words.groups {
                for option in options_of(*group) {
                    if option.name == INPUT {
                        return true;
                    }
                }
            }
        }
    }
    false
}

// Whether a word is that option, or has it before a `=`.
fn gives_input(word: &str) -> bool {
    match word.split_once('=') {
        Some((name, _)) => is_option(name, INPUT),
        None => is_option(word, INPUT),
    }
}

fn has_input(words: &[String]) -> bool {
    for word in words {
        if gives_input(word.as_str()) {
            return true;
        }
    }
    false
}

// Whether a word behind the others can be the file of an input: it is no option and not the name of a program.
fn is_input(words: &[String], word: &str) -> bool {
    match words.first() {
        Some(command) => {
            let is_file = !word.starts_with("-") && !word.ends_with(".pram");
            is_file && takes_input(command.as_str()) && !has_input(words)
        }
        None => false,
    }
}

// What an option wants, as it is said where the parser takes its word.
fn wanted(alloc: Global, words: &[String], word: &str) -> Result<Buffer, AllocError> {
    let mut sentence = Buffer::new(alloc);
    match write_word_fault(&mut sentence, wrong_option(words, word), word) {
        Ok(()) => Ok(sentence),
        Err(_) => Err(AllocError),
    }
}

// The number below 0 that is told by its first letters.
fn negative<'a>(words: &'a [String], told: &str) -> Option<&'a str> {
    for word in words {
        let word = word.as_str();
        if is_negative(word) && word.starts_with(told) {
            return Some(word);
        }
    }
    None
}

// A question behind the parser's line.
fn push_question(text: &mut String, meant: &str) -> Result<(), AllocError> {
    text.push_str("\n  tip: did you mean '")?;
    text.push_str(meant)?;
    text.push_str("'?\n")
}

// What the option of a number below 0 wants.
fn push_wanted(
    alloc: Global,
    text: &mut String,
    words: &[String],
    word: &str,
) -> Result<(), AllocError> {
    let sentence = wanted(alloc, words, word)?;
    if sentence.bytes().is_empty() {
        return Ok(());
    }
    text.push_str("\n  tip: ")?;
    text.push_str(String::from_utf8_lossy(alloc, sentence.bytes())?.as_str())
}

/// Adds what is meant, where the parser doesn't take this word of a call and that is known: an option with the two words behind it as one,
/// a number that isn't below 0, or an input.
pub(crate) fn push_meant(
    alloc: Global,
    text: &mut String,
    words: &[String],
    told: &str,
) -> Result<(), AllocError> {
    if let Some(meant) = joined_in(alloc, words)? {
        return push_question(text, meant.as_str());
    }
    if let Some(word) = negative(words, told) {
        return push_wanted(alloc, text, words, word);
    }
    if is_input(words, told) {
        let meant = format!(in alloc; "--input {told}")?;
        return push_question(text, meant.as_str());
    }
    Ok(())
}
