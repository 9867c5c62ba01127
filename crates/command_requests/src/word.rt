//! Words by which sizes are given.

ghost use Rattle.std.specs.Prelude.{◌≡◌};
ghost use Rattle.command_requests.specs.Given.{word_text};

use crate::SizeWord;

/// A word as it stands on the command line.
pub(crate) fn text_of<'a>(word: SizeWord<'a>) -> &'a str
    ensures { result.now ≡ word_text word.entry }
{
    match word {
        SizeWord::Given(word) => word,
        SizeWord::Swept(word, _) => word,
    }
}
