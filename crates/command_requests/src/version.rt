//! The version of the program.

ghost use Rattle.std.specs.Prelude.{◌≡◌, ◌↔◌, map, true};
ghost use Rattle.std.specs.String.{string_bytes};
ghost use Rattle.command_requests.specs.Words.{AsksForVersion, IsVersionWord};

/// The version of the program.
pub const VERSION: &str = "1.10.0";

fn is_version_word(word: &str) -> bool
    ensures { (result ≡ true) ↔ IsVersionWord word.now }
{
    word == "--version" || word == "-V"
}

/// Whether the words ask for the version, and for nothing else.
pub fn asks_for_version(words: &[String]) -> bool
    // Words ask for the version alone exactly where the one word is `--version` or `-V`.
    ensures { (result ≡ true) ↔ AsksForVersion (map string_bytes words.now) }
{
    match words {
        [word] => is_version_word(word.as_str()),
        _ => false,
    }
}
