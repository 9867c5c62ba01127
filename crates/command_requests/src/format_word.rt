//! The words that ask for JSON, or for the lines that editors read.

ghost use Rattle.std.specs.Prelude.{◌≡◌, map};
ghost use Rattle.std.specs.String.{string_bytes};
ghost use Rattle.command_requests.specs.Words as spec;

use crate::same_word::is_same;

const FORMAT_WORD: &str = "--format";

// Whether the words ask for the format of that name: it stands right behind `--format`, or the one word for both stands there.
fn asks_for(words: &[String], name: &str, both: &str) -> bool
    ensures { result ≡ spec.asks_for name.now both.now (map string_bytes words.now) }
{
    let mut behind_format = false;
    for word in words {
        let word = word.as_str();
        if is_same(both, word) || (behind_format && is_same(name, word)) {
            return true;
        }
        behind_format = is_same(FORMAT_WORD, word);
    }
    false
}

/// Whether the words ask for JSON: `json` stands right behind `--format` somewhere, or one of them is `--format=json`. So it is whatever
/// else stands among them, also where the parser of command lines refuses them.
pub fn asks_for_json(words: &[String]) -> bool
    // Words ask for JSON exactly where `json` stands right behind `--format`, or one of them is `--format=json`.
    ensures { result ≡ spec.asks_for_json (map string_bytes words.now) }
{
    asks_for(words, "json", "--format=json")
}

/// Whether the words ask that what is refused be told in the lines that editors read: so it is of `gnu`, as of `json` for JSON.
pub fn asks_for_gnu(words: &[String]) -> bool
    ensures { result ≡ spec.asks_for_gnu (map string_bytes words.now) }
{
    asks_for(words, "gnu", "--format=gnu")
}
