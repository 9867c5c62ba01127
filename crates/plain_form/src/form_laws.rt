//! Laws of the code of programs.

ghost use Rattle.plain_form.specs.Counted.{ReadsAreKept};
ghost use Rattle.plain_form.specs.Sizes.{CodeIsShort, WordsAreInTheText, CodeFits};

/// A formula has as many shared reads as the expression that it is of: at most eight in a statement
/// of an accepted program, each with a register of its own.
pub fn reads_are_kept()
    // The formula that a statement's code is made from has as many shared reads as its expression.
    ensures reads { ReadsAreKept }
{}

/// The code of a program has at most four instructions for each word and sign of its body, and one
/// more: without the brackets, each `else`, and the declarations of locals. Those words, and eight
/// around them, are in the text. So the code of an accepted program is within the limit of a
/// listing, of 65,536 instructions.
pub fn code_is_short()
    // A program's code has at most four instructions for each word and sign of its body, but brackets, `else` and
    // declarations of locals, and one more.
    ensures short { CodeIsShort }
    // These words and signs of a program's body, and eight more, are among those of the program's text.
    ensures in_text { WordsAreInTheText }
    // The code of a program with as few words and signs as a text may have has at most 65,536 instructions.
    ensures fits { CodeFits }
{}
