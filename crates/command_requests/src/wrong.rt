//! The option that a word is wrong for.

ghost use Rattle.std.specs.Prelude.{◌≡◌, map};
ghost use Rattle.std.specs.String.{string_bytes};
ghost use Rattle.command_requests.specs.Values as spec;

use crate::given::Given;
use crate::named::{is_same, named_in};
use crate::takes::takes;
use memory_texts::{Choice, is_chosen};

// Whether a call is one of `cost`.
fn tells_costs(words: &[String]) -> bool
    ensures { result ≡ spec.tells_costs (map string_bytes words.now) }
{
    match words {
        [] => false,
        [first, ..] => is_same(first.as_bytes(), b"cost"),
    }
}

// Whether a word is the value of an option, or one of the names that are to be shown or drawn.
fn holds(given: Given, value: &str, told: &str) -> bool
    ensures { result ≡ spec.holds given value.now told.now }
{
    match given {
        Given::Show | Given::Only => is_chosen(Choice::Named(value), told.as_bytes()),
        _ => is_same(value.as_bytes(), told.as_bytes()),
    }
}

fn held_by(given: Option<Given>, value: &str, told: &str) -> Option<Given>
    ensures { result ≡ spec.held_by given value.now told.now }
{
    match given {
        None => None,
        Some(given) => {
            if holds(given, value, told) {
                Some(given)
            } else {
                None
            }
        }
    }
}

// The option of a word `--NAME=VALUE`, where it has this value.
fn joined(costs: bool, word: &str, told: &str) -> Option<Given>
    ensures { result ≡ spec.joined costs word.now told.now }
{
    match word.split_once('=') {
        None => None,
        Some((name, value)) => held_by(named_in(costs, name.as_bytes()), value, told),
    }
}

fn value_at(costs: bool, before: Option<Given>, word: &str, told: &str) -> Option<Given>
    ensures { result ≡ spec.value_at costs before word.now told.now }
{
    match held_by(before, word, told) {
        Some(given) => Some(given),
        None => joined(costs, word, told),
    }
}

fn refused_by(given: Option<Given>, told: &str) -> Option<Given>
    ensures { spec.IsRefusedBy given told.now result }
{
    match given {
        None => None,
        Some(given) => {
            if takes(given, told) {
                None
            } else {
                Some(given)
            }
        }
    }
}

fn wrong_at(costs: bool, before: Option<Given>, word: &str, told: &str) -> Option<Given>
    ensures { spec.IsRefusedBy (spec.value_at costs before word.now told.now) told.now result }
{
    refused_by(value_at(costs, before, word, told), told)
}

/// The first option of the words of a call that has this word as its value and doesn't take it: the word stands behind the option's name,
/// or behind the `=` in one word with it; of names that are to be shown or drawn it may be one of them. The first word is the command:
/// `cost` takes other numbers of workers than those that run a program.
pub fn wrong_option(words: &[String], told: &str) -> Option<Given>
    // It is the first option of the call whose value the word is and that doesn't take it, and none where there is no
    // such option.
    ensures { spec.IsWrong (map string_bytes words.now) told.now result }
{
    let costs = tells_costs(words);
    let mut before = None;
    for word in words {
        let word = word.as_str();
        if let Some(given) = wrong_at(costs, before, word, told) {
            return Some(given);
        }
        before = named_in(costs, word.as_bytes());
    }
    None
}
