//! What is so of hints.

ghost use Rattle.std.specs.Prelude.{◌≡◌, ℕ, List};
ghost use Rattle.pram_tokens.specs.Scanning.{cut_of};
ghost use Rattle.pram_tokens.specs.declared.token.Opening.{Opening as OpeningOf};
ghost use Rattle.help.specs.declared.choice.Choice.{Choice as ChoiceOf};
ghost use Rattle.help.specs.Hints.{IsHint};
ghost use Rattle.help.specs.OpenBlocks.{IsOpenIn};
ghost use Rattle.help.specs.declared.hint.Hint.{Hint as HintOf};
ghost use Rattle.help.specs.declared.hint.Hint.TheVariants.{Open as OpenAt};

/// A block that a hint tells to be open begins at that place of the text, and none of the tokens behind it is its `end`.
pub fn an_open_block_has_no_end()
    // A block that is told as open begins at that place of the text, and none of the tokens behind it is its `end`.
    ensures { (text : List ℕ) (at : ℕ) (found : List ChoiceOf) (o : OpeningOf) (begins : ℕ) →
        IsHint text at found (OpenAt o begins) → IsOpenIn (cut_of text) o begins }
{}

/// There is one hint for a place: none other is right there, and none at all only where there is nothing to hint.
pub fn a_place_has_one_hint()
    // For a place there is one hint at most, and saying nothing counts as one.
    ensures { (text : List ℕ) (at : ℕ) (found : List ChoiceOf) (hint other : HintOf) →
        IsHint text at found hint → IsHint text at found other → hint ≡ other }
{}
