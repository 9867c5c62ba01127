//! Two numbers of an option.

ghost use Rattle.std.specs.Prelude.{◌≡◌, ℕ, Some, IfSome};
ghost use Rattle.run_options.specs.Maps.{IsPair};

use crate::number::read_number;

/// The two numbers of a word that has a comma between them: `5,3`. `None`: it is no such word.
pub fn read_pair(word: &str) -> Option<(u32, u32)>
    // The two numbers are those before and behind the comma of the word.
    ensures spelled { IfSome result (λ pair. IsPair word.now pair.0 pair.1) }
    // Each word of two such numbers with a comma between them is read as these.
    ensures found { (a b : ℕ) → IsPair word.now a b → result ≡ Some (a, b) }
{
    let (first, second) = word.split_once(',')?;
    let a = read_number(first)?;
    let b = read_number(second)?;
    Some((a, b))
}
