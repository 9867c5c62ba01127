//! The bytes of a text, before they are cut into tokens.

ghost use Rattle.std.specs.Prelude.{◌≤◌, length, MatchOption};
ghost use Rattle.pram_tokens.specs.Plain as spec;
ghost use Rattle.pram_tokens.specs.Scanning.{longest};

/// The greatest length of a text, in bytes.
pub const LONGEST: usize = 1_048_576;

/// The offset of the first byte of 128 or more.
pub fn first_other(text: &[u8]) -> Option<usize>
    requires fits { length text.now ≤ longest }
    ensures first { MatchOption result (spec.IsAsciiTo text.now (length text.now)) (λ at. spec.IsFirstOther text.now at) }
{
    for at in 0..text.len() {
        if text[at] >= 128 {
            return Some(at);
        }
    }
    None
}
