//! The body of a checked program: names are numbers here, and statements outside and inside pardo
//! are of two types.

use pram_trees::{Binary, Location, Prefix};

/// An expression. A uniform variable, a local or a shared declaration goes by its number, counted
/// from 0 in the order of declaration. Parentheses are gone: they change no value.
#[cycle(expression)]
#[derive(Drop)]
pub enum Expression {
    Number(i64),
    Uniform(usize),
    /// The index of the processor that evaluates it.
    Index,
    Local(usize),
    /// The one cell of a declaration.
    Cell(usize),
    /// A cell of an array, by its subscript.
    Element(usize, Box<Expression>),
    Prefix(Prefix, Box<Expression>),
    /// Operands with operators of one level, from left to right.
    Chain(Box<Expression>, Vec<Link>),
}

/// One more operand of a chain, behind its operator.
#[cycle(expression)]
#[derive(Drop)]
pub struct Link {
    pub operator: Binary,
    pub operand: Expression,
}

/// What an assignment outside pardo writes to.
#[derive(Drop)]
pub enum Target {
    Uniform(usize),
    Cell(usize),
    Element(usize, Expression),
}

/// What an assignment inside pardo writes to.
#[derive(Drop)]
pub enum StepTarget {
    Local(usize),
    Cell(usize),
    Element(usize, Expression),
}

/// A statement inside pardo, with the place of its first word.
#[derive(Drop)]
pub enum Step {
    Assign {
        location: Location,
        target: StepTarget,
        value: Expression,
    },
    If {
        location: Location,
        test: Expression,
        then_part: Vec<Step>,
        else_part: Vec<Step>,
    },
    While {
        location: Location,
        test: Expression,
        body: Vec<Step>,
    },
}

/// A statement outside pardo, with the place of its first word. A missing `else` is an empty one.
#[derive(Drop)]
pub enum Statement {
    Assign {
        location: Location,
        target: Target,
        value: Expression,
    },
    Print {
        location: Location,
        value: Expression,
    },
    While {
        location: Location,
        test: Expression,
        body: Vec<Statement>,
    },
    If {
        location: Location,
        test: Expression,
        then_part: Vec<Statement>,
        else_part: Vec<Statement>,
    },
    For {
        location: Location,
        variable: usize,
        low: Expression,
        high: Expression,
        body: Vec<Statement>,
    },
    /// With the number of the locals of its body.
    Pardo {
        location: Location,
        low: Expression,
        high: Expression,
        locals: usize,
        body: Vec<Step>,
    },
}
