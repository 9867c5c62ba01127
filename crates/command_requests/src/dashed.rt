//! Intervals that are written with `-`.

ghost use Rattle.std.specs.Prelude.{◌≡◌};
ghost use Rattle.std.specs.Option.{option_map};
ghost use Rattle.command_requests.specs.Sentences as spec;

use crate::given::Given;
use run_options::read_number;

fn are_ends(low: Option<u32>, high: Option<u32>) -> bool
    ensures { result ≡ spec.are_ends low high }
{
    match (low, high) {
        (Some(low), Some(high)) => low <= high,
        (_, _) => false,
    }
}

// Both, if they are numbers of which the first is at most the second.
fn ends_of<'a>(low: &'a str, high: &'a str) -> Option<(&'a str, &'a str)>
    ensures { option_map (λ ends. (ends.0.now, ends.1.now)) result ≡ spec.ends_of low.now high.now }
{
    if are_ends(read_number(low), read_number(high)) {
        Some((low, high))
    } else {
        None
    }
}

// Such numbers with `-` between them.
fn ends_in<'a>(word: &'a str) -> Option<(&'a str, &'a str)>
    ensures { option_map (λ ends. (ends.0.now, ends.1.now)) result ≡ spec.ends_in word.now }
{
    match word.split_once('-') {
        None => None,
        Some((low, high)) => ends_of(low, high),
    }
}

/// The ends of the interval that is meant, where an option that takes one is given a word as `1-8`.
pub(crate) fn ends_meant<'a>(given: Given, word: &'a str) -> Option<(&'a str, &'a str)>
    ensures { option_map (λ ends. (ends.0.now, ends.1.now)) result ≡ spec.ends_meant given word.now }
{
    match given {
        Given::Values | Given::Random => ends_in(word),
        _ => None,
    }
}
