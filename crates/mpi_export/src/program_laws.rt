//! What holds of every C text.

ghost use Rattle.mpi_export.specs.Standing.{NamesStandInLiterals, TextsTellCodes};

/// The names of declarations stand in string literals as they are: no byte of them ends a literal, or means another one there.
pub fn names_stand_in_literals()
    // No name of a declaration has a quotation mark, a backslash or an end of line, so it stands in a string literal of
    // C as it is.
    ensures { NamesStandInLiterals }
{}

/// A text is that of one code.
pub fn texts_tell_codes()
    // Two codes within the limits that have the same C text are the same code.
    ensures { TextsTellCodes }
{}
