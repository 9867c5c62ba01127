//! The law of this crate.

ghost use Rattle.std.specs.Prelude.{ℕ, List, Some};
ghost use Rattle.command_requests.specs.declared.given.Given.{Given};
ghost use Rattle.command_requests.specs.Options.{Takes};
ghost use Rattle.command_requests.specs.Values.{IsValueOf, IsWrong, tells_costs};

/// Of an option that is told to be wrong the word is the value, and the option doesn't take it.
pub fn what_is_told_is_wrong()
    // The word stands behind the option's name, or behind the `=` in one word with it, as its value or one of its
    // names.
    ensures value { (words : List (List ℕ)) (told : List ℕ) (g : Given) → IsWrong words told (Some g) →
        IsValueOf (tells_costs words) words told g }
    // The option takes no such word, by what options of a run and intervals are.
    ensures refused { (words : List (List ℕ)) (told : List ℕ) (g : Given) → IsWrong words told (Some g) → ¬ (Takes g told) }
{}
