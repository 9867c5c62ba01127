//! The option of a name.

ghost use Rattle.std.specs.Prelude.{◌≡◌};
ghost use Rattle.pram_model.specs.Names.{same_text};
ghost use Rattle.command_requests.specs.Options as spec;

use crate::given::{Given, NAMED};

/// Whether two texts are one.
pub(crate) fn is_same(a: &[u8], b: &[u8]) -> bool
    ensures { result ≡ same_text a.now b.now }
{
    a == b
}

// The first of some options that has that name, if there is one.
fn named_among(options: &[Given], word: &[u8]) -> Option<Given>
    ensures { result ≡ spec.named_among options.now word.now }
{
    for given in options {
        if is_same(word, given.name()) {
            return Some(*given);
        }
    }
    None
}

// The option of that name, if there is one.
fn named(word: &[u8]) -> Option<Given>
    ensures { result ≡ spec.named word.now }
{
    named_among(&NAMED, word)
}

/// The option of that name, in a call of `cost` or of another command.
pub(crate) fn named_in(costs: bool, word: &[u8]) -> Option<Given>
    ensures { result ≡ spec.named_in costs word.now }
{
    if costs && is_same(word, b"--workers") {
        Some(Given::ToldWorkers)
    } else {
        named(word)
    }
}
