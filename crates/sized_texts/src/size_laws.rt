//! Laws of texts with sizes.

ghost use Rattle.std.specs.Prelude.{◌≡◌, ℕ, List, [], Ok};
ghost use Rattle.sized_texts.specs.Expressions.{braced};
ghost use Rattle.sized_texts.specs.Grammar.{IsExpression};
ghost use Rattle.sized_texts.specs.declared.size.Size.{Size};
ghost use Rattle.sized_texts.specs.Expansion as spec;

/// A text without a size line is itself.
pub fn a_text_without_size_lines_is_itself()
    // A text without a size line expands to itself, where no numbers are given.
    ensures { (text : List ℕ) → spec.HasNoSizeLine text → spec.expansion [] text ≡ Ok (spec.itself text) }
{}

/// What an expression in braces comes to is its number by the grammar.
pub fn what_is_read_is_by_the_grammar()
    // A number that is read of an expression in braces is its number by the grammar.
    ensures { (sizes : List Size) (text : List ℕ) (v : ℕ) (rest : List ℕ) →
        braced sizes text ≡ Ok (v, rest) → IsExpression sizes text v rest }
{}
