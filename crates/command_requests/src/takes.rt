//! Whether an option takes a word.

ghost use Rattle.std.specs.Prelude.{◌≡◌, ◌⊎◌, MatchBool, codes, ℕ, ℤ};
ghost use Rattle.drawn_kinds.specs.Names as kinds;
ghost use Rattle.drawn_kinds.specs.declared.kind.DrawnKind.{DrawnKind};
ghost use Rattle.run_options.specs.Maps.{IsPair, Names};
ghost use Rattle.run_options.specs.declared.map_choice.MapChoice.{MapChoice};
ghost use Rattle.scopes.specs.Intervals.{IsInterval};
ghost use Rattle.command_requests.specs.Options as spec;

use crate::given::Given;
use crate::{MOST_CELLS, MOST_DRAWN, MOST_ORDERED};
use drawn_kinds::read_kind;
use pram_model::Rule;
use run_options::{read_map, read_number, read_pair};
use scopes::read_interval;

fn is_number(word: &str) -> bool
    ensures { MatchBool result (spec.IsNumber word.now) (¬ (spec.IsNumber word.now)) }
{
    match read_number(word) {
        Some(_) => true,
        None => false,
    }
}

fn is_count(word: &str) -> bool
    ensures { MatchBool result (spec.IsCount word.now) (¬ (spec.IsCount word.now)) }
{
    match read_number(word) {
        Some(number) => number > 0,
        None => false,
    }
}

fn is_map(word: &str) -> bool
    ensures { MatchBool result ((map : MapChoice) × Names word.now map) (¬ ((map : MapChoice) × Names word.now map)) }
{
    match read_map(word) {
        Some(_) => true,
        None => false,
    }
}

fn is_pair(word: &str) -> bool
    ensures { MatchBool result ((a : ℕ) × (b : ℕ) × IsPair word.now a b) (¬ ((a : ℕ) × (b : ℕ) × IsPair word.now a b)) }
{
    match read_pair(word) {
        Some(_) => true,
        None => false,
    }
}

fn is_interval(word: &str) -> bool
    ensures { MatchBool result ((low : ℤ) × (high : ℤ) × IsInterval word.now low high)
        (¬ ((low : ℤ) × (high : ℤ) × IsInterval word.now low high)) }
{
    match read_interval(word) {
        Some(_) => true,
        None => false,
    }
}

fn is_kind(word: &str) -> bool
    ensures { MatchBool result ((kind : DrawnKind) × kinds.Names word.now kind) (¬ ((kind : DrawnKind) × kinds.Names word.now kind)) }
{
    match read_kind(word) {
        Some(_) => true,
        None => false,
    }
}

fn is_format(word: &str) -> bool
    ensures { MatchBool result ((word.now ≡ codes "text") ⊎ (word.now ≡ codes "json"))
        (¬ ((word.now ≡ codes "text") ⊎ (word.now ≡ codes "json"))) }
{
    word == "text" || word == "json"
}

fn is_cells(word: &str) -> bool
    ensures { MatchBool result (spec.IsCells word.now) (¬ (spec.IsCells word.now)) }
{
    match read_number(word) {
        Some(number) => number <= MOST_CELLS,
        None => false,
    }
}

fn are_ordered(word: &str) -> bool
    ensures { MatchBool result (spec.AreOrdered word.now) (¬ (spec.AreOrdered word.now)) }
{
    match read_number(word) {
        Some(number) => number > 0 && number <= MOST_ORDERED,
        None => false,
    }
}

fn are_drawn(word: &str) -> bool
    ensures { MatchBool result (spec.AreDrawn word.now) (¬ (spec.AreDrawn word.now)) }
{
    match read_number(word) {
        Some(number) => number > 0 && number <= MOST_DRAWN,
        None => false,
    }
}

fn is_rule(word: &str) -> bool
    ensures { MatchBool result (spec.IsRule word.now) (¬ (spec.IsRule word.now)) }
{
    match Rule::of_word(word.as_bytes()) {
        Some(_) => true,
        None => false,
    }
}

/// Whether an option takes a word, whatever else is asked for and whatever stands in files.
pub(crate) fn takes(given: Given, word: &str) -> bool
    ensures { MatchBool result (spec.Takes given word.now) (¬ (spec.Takes given word.now)) }
{
    match given {
        Given::Bound | Given::Workers | Given::From | Given::To | Given::Seed => is_number(word),
        Given::TimeAtMost | Given::WorkAtMost | Given::ProcsAtMost => is_number(word),
        Given::Seconds | Given::Schedule | Given::ToldWorkers => is_count(word),
        Given::Map => is_map(word),
        Given::Reserve | Given::Bsp => is_pair(word),
        Given::Random => is_interval(word),
        Given::Draw => is_kind(word),
        Given::Format => is_format(word),
        Given::Cells => is_cells(word),
        Given::Permutations => are_ordered(word),
        Given::Under => is_rule(word),
        Given::Count => are_drawn(word),
        Given::Values | Given::Size | Given::Sweep | Given::Show | Given::Only | Given::Subject =>
            false,
    }
}
