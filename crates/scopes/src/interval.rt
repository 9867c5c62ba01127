//! Intervals as words: `LO..HI`.

ghost use Rattle.std.specs.Prelude.{◌≡◌, ℤ, Some, IfSome};
ghost use Rattle.std.specs.Option.{option_map};
ghost use Rattle.scopes.specs.Intervals as spec;

use number_words::read_number;

// What stands behind a dot at the front.
fn past_dot(text: &[u8]) -> Option<&[u8]>
    ensures { spec.behind_dot text.now ≡ option_map (λ rest. rest.now) result }
{
    match text {
        [b'.', rest @ ..] => Some(rest),
        _ => None,
    }
}

/// The two ends of an interval `LO..HI`, as `-5..5`: whole numbers of 64 bits, of which the first is at most the second. `None`: it is no
/// such word.
pub fn read_interval(word: &str) -> Option<(i64, i64)>
    ensures spelled { IfSome result (λ ends. spec.IsInterval word.now ends.0 ends.1) }
    ensures found { (low high : ℤ) → spec.IsInterval word.now low high → result ≡ Some (low, high) }
{
    let (first, behind) = word.split_once('.')?;
    let second = past_dot(behind.as_bytes())?;
    let low = read_number(first.as_bytes())?;
    let high = read_number(second)?;
    if high < low {
        return None;
    }
    Some((low, high))
}
