//! What other languages write.

ghost use Rattle.std.specs.Prelude.{◌≡◌};
ghost use Rattle.help.specs.Habits as spec;

/// What a word or a symbol would be that can't stand at its place.
#[derive(Clone, Copy, Debug, PartialEq, Eq)]
pub enum Habit {
    /// A word for `else if`.
    ElseIf,
    /// A word that ends a block of its own.
    BlockEnd,
    /// The second `=` of two.
    Compare,
    /// A sign of an assignment.
    Assign,
    /// A declaration among statements.
    Declaration,
    /// Locals among statements.
    Local,
    /// A word in the place of `do`.
    Do,
    /// A word in the place of `then`.
    Then,
    /// A word in the place of `pardo`.
    Pardo,
    /// A block within the program.
    Begin,
    /// A call of a function.
    Call,
    /// A keyword in the place of a name.
    Keyword,
    /// A name at the front of a statement, with another one behind it.
    Word,
    /// A word that leaves a loop.
    Jump,
    /// A word for a pardo.
    Parallel,
    /// A function that an `if` stands for.
    Function,
    /// A function of sizes.
    SizeFunction,
    /// A keyword in capitals.
    Capitals,
    /// What is no `:=` behind the variable of a `for`.
    In,
    /// A `;` behind what needs none.
    Semicolon,
    /// A `for` that is no pardo and is meant as one.
    Range,
    /// A value in a declaration.
    Value,
    /// An array with one bound.
    Bounds,
    /// A name where a number has to stand.
    Constant,
    /// A second subscript.
    Subscript,
    /// A comparison whose signs stand the other way round.
    Order,
    /// A comparison of a comparison.
    Chain,
    /// A `-` before a bound.
    Negative,
    /// What is neither the rule nor the number of processors at the front of a program.
    Frame,
}

/// What is said behind the word or symbol.
pub fn habit_text(habit: Habit) -> &'static [u8]
    ensures { result.now ≡ spec.habit_text habit }
{
    match habit {
        Habit::ElseIf =>
            b" is no word of the language: write \"else if\", and an \"end\" for each \"if\"",
        Habit::BlockEnd => b" is no word of the language: a block ends with \"end\"",
        Habit::Compare => b" can't stand here: one \"=\" compares, and \":=\" assigns",
        Habit::Assign => b" can't stand here: \":=\" assigns, as in x := x + 1",
        Habit::Declaration => b" can't stand here: declarations stand before \"begin\"",
        Habit::Local => b" can't stand here: locals are declared first in the body of a pardo",
        Habit::Do => b" can't stand here: the body begins with \"do\"",
        Habit::Then => b" can't stand here: what an \"if\" does begins with \"then\"",
        Habit::Pardo => b" can't stand here: the body of a range begins with \"pardo\"",
        Habit::Begin =>
            b" can't stand here: a program has one \"begin\", and a block goes up to its \"end\"",
        Habit::Call =>
            b" can't stand here: there are no functions, and a subscript stands between [ and ]",
        Habit::Keyword => b" is a keyword, and no name",
        Habit::Word =>
            b" is no word of the language: a statement is an assignment, print, while, if or for",
        Habit::Jump => b" is no word of the language: a loop ends where its test fails",
        Habit::Parallel =>
            b" is no word of the language: a pardo is written \"for 1 <= i <= 8 pardo\"",
        Habit::Function => b" is no function of the language: write an \"if\" in its place",
        Habit::SizeFunction =>
            b" stands between braces alone, with numbers and sizes in it, as {log(8)}",
        Habit::Capitals => b" is a name here: keywords have small letters",
        Habit::In =>
            b" can't stand here: a loop is \"for i := 1 to 8 do\", and a pardo \"for 1 <= i <= 8 pardo\"",
        Habit::Semicolon =>
            b" can't stand here: there is none behind \"begin\", \"do\", \"then\", \"else\", \"pardo\" or \"end\", and no two in a row",
        Habit::Range => b" can't stand here: a pardo is written \"for 1 <= i <= 8 pardo\"",
        Habit::Value => b" can't stand here: a declaration has no value, and all begin with 0",
        Habit::Bounds =>
            b" can't stand here: an array has a first and a last subscript, as a[1..8]",
        Habit::Constant =>
            b" can't stand here: a number has to, or with a first line \"# size n = 8\" a size, as {n}",
        Habit::Subscript =>
            b" can't stand here: an array has one subscript, and a[(i - 1) * n + j] is row i, column j of n columns",
        Habit::Order => b" can't stand here: the comparisons are \">=\" and \"<=\"",
        Habit::Chain => b" can't stand here: comparisons don't chain, write 1 < m and m < 3",
        Habit::Negative => b" can't stand here: a bound is a number from 0 on",
        Habit::Frame => b" can't stand here: a program begins with \"rule crew; procs 8;\"",
    }
}
