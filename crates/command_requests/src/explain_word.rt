//! The word that asks for explanations.

ghost use Rattle.std.specs.Prelude.{◌≡◌, map};
ghost use Rattle.std.specs.String.{string_bytes};
ghost use Rattle.command_requests.specs.Words as spec;

use crate::same_word::is_same;

const EXPLAIN_WORD: &str = "--explain";

/// Whether one of the words asks that what is refused, and a fault, be explained.
pub fn asks_to_explain(words: &[String]) -> bool
    // Words ask for explanations exactly where one of them is `--explain`.
    ensures { result ≡ spec.asks_to_explain (map string_bytes words.now) }
{
    for word in words {
        if is_same(EXPLAIN_WORD, word.as_str()) {
            return true;
        }
    }
    false
}
