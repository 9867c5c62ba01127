//! Tokens: the words, numbers and symbols of a text.

use sqlite_items::Items;

/// Where a token begins: its offset in bytes, and its line, which is 1 plus the number of LF
/// bytes before it.
#[derive(Clone, Copy, Debug, PartialEq, Eq)]
pub struct Location {
    pub offset: u32,
    pub line: u32,
}

/// An operator between two operands.
#[derive(Clone, Copy, Debug, PartialEq, Eq)]
pub enum Binary {
    Or,
    And,
    Equal,
    Unequal,
    Less,
    AtMost,
    Greater,
    AtLeast,
    Add,
    Subtract,
    Multiply,
    Divide,
    Remainder,
}

/// The first word of a statement that is no assignment.
#[derive(Clone, Copy, Debug, PartialEq, Eq)]
pub enum Opening {
    Print,
    While,
    If,
    For,
}

/// A fixed word or symbol whose place is not kept.
#[derive(Clone, Copy, Debug, PartialEq, Eq)]
pub enum Mark {
    OpenParen,
    CloseParen,
    OpenBracket,
    CloseBracket,
    Becomes,
    Semicolon,
    Range,
    Rule,
    Procs,
    Shared,
    Var,
    Begin,
    Do,
    End,
    Then,
    Else,
    To,
    Pardo,
    Local,
}

/// A name and where it stands.
#[derive(Drop)]
pub struct Name {
    pub text: Items<u8>,
    pub location: Location,
}

/// A number, from 0 to 9223372036854775807, and where it stands.
#[derive(Clone, Copy, Debug, PartialEq, Eq)]
pub struct Numeral {
    pub value: i64,
    pub location: Location,
}

/// A word, number or symbol of a text.
#[derive(Drop)]
pub enum Token {
    Name(Name),
    Number(Numeral),
    Binary(Binary),
    Not,
    Opening(Opening, Location),
    Mark(Mark),
}
