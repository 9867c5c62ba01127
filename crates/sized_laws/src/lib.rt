//! Laws of texts with sizes.
#![tactic(auto)]

ghost use Rattle.std.specs.Prelude.{◌≡◌, ℕ, List, Ok};
ghost use Rattle.sized_texts.specs.declared.size.Size.{Size};
ghost use Rattle.sized_texts.specs.Expressions.{braced};
ghost use Rattle.sized_texts.specs.Grammar.{IsExpression};
ghost use Rattle.sized_laws.specs.Again.{ExpansionsAreFinal};
ghost use Rattle.sized_laws.specs.Comments.{NoBraceIsLeft};
ghost use Rattle.sized_laws.specs.Expands.{TextsAreFilled, TextsExpand};
ghost use Rattle.sized_laws.specs.Lines.{LinesAreKept};

/// An expansion has as many lines as its text, and each of its bytes stands in the line of the place that it came from.
pub fn lines_are_kept()
    // An expansion has as many lines as its text, and each of its bytes stands in the line of the place that it came
    // from.
    ensures { LinesAreKept }
{}

/// In an expansion of a text that has a size each opening brace stands in a comment.
pub fn no_brace_is_left()
    // In an expansion of a text that has a size, each `{` stands in a comment, so that no expression is left.
    ensures { NoBraceIsLeft }
{}

/// An expansion, expanded with any numbers given to sizes of its text, is itself.
pub fn expansions_are_final()
    // An expansion, expanded with any numbers given to sizes of its text, or with none, is itself.
    ensures { ExpansionsAreFinal }
{}

/// Each expression of the grammar is read, and comes to its number. What is read is such an expression by a law of `sized_texts`.
pub fn expressions_are_read()
    // Each expression of the grammar is read and comes to its number, so that no text has two.
    ensures { (sizes : List Size) (text : List ℕ) (v : ℕ) (rest : List ℕ) →
        IsExpression sizes text v rest → braced sizes text ≡ Ok (v, rest) }
{}

/// A text expands to its bytes as they stand, but for expressions of the grammar in braces, which give their numbers; and to nothing else.
/// Comments stand as they are, so size lines do too. A text without sizes is itself.
pub fn expansions_are_exact()
    // Expansions are exactly those by the sizes: bytes and comments stand, in order and with their places, but
    // expressions in braces outside comments become digits; without sizes nothing changes.
    ensures { TextsExpand }
{}

/// The same of a text that is filled.
pub fn fillings_are_exact()
    // A name is filled exactly where it expands by the sizes in the same way.
    ensures { TextsAreFilled }
{}
