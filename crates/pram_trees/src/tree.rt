//! The tree of a program: its text without spaces and comments.

ghost use Rattle.std.specs.Prelude.{◌≡◌, length};
ghost use Rattle.std.specs.Coded.{codes};
ghost use Rattle.pram_trees.specs.contracts.tree.Stmt as stmt;
ghost use Rattle.pram_trees.specs.OtherRule.{tree_under};
ghost use Rattle.pram_trees.specs.Program.{ProgramTree, IsTree, limit, program_tokens, tree_of};

use pram_model::Rule;
use pram_tokens::{Binary, Location, Name, Numeral};
use sqlite_items::{Boxed, Items};
use std::marker::Model;

/// An operator before its operand.
#[derive(Clone, Copy, Debug, PartialEq, Eq)]
pub enum Prefix {
    Not,
    Negate,
}

/// An expression.
#[derive(Drop)]
pub enum Expr {
    Number(Numeral),
    Name(Name),
    /// A cell of an array.
    Element(Name, Boxed<Expr>),
    /// What stands in parentheses.
    Paren(Boxed<Expr>),
    Prefix(Prefix, Boxed<Expr>),
    /// Operands with operators of one level, from left to right.
    Chain(Boxed<Expr>, Items<(Binary, Expr)>),
}

/// A statement. The location is that of its first word; an assignment's is that of its name.
#[derive(Drop)]
pub enum Stmt {
    Assign {
        target: Name,
        value: Expr,
    },
    AssignElement {
        target: Name,
        subscript: Expr,
        value: Expr,
    },
    Print {
        location: Location,
        value: Expr,
    },
    While {
        location: Location,
        test: Expr,
        body: Items<Stmt>,
    },
    /// A missing `else` and an empty one are two things.
    If {
        location: Location,
        test: Expr,
        then_part: Items<Stmt>,
        else_part: Option<Items<Stmt>>,
    },
    For {
        location: Location,
        variable: Name,
        low: Expr,
        high: Expr,
        body: Items<Stmt>,
    },
    Pardo {
        location: Location,
        low: Expr,
        index: Name,
        high: Expr,
        locals: Items<Name>,
        body: Items<Stmt>,
    },
}

/// A declaration.
#[derive(Drop)]
pub enum Declaration {
    /// `shared s;`
    Cell(Name),
    /// `shared a[low..high];`
    Array(Name, Numeral, Numeral),
    /// `var x;`
    Uniform(Name),
}

/// A whole program. It stands in the grammar, with blocks and expressions nested at most 64 deep.
#[derive(Drop)]
pub struct Tree {
    rule: Rule,
    rule_location: Location,
    procs: Numeral,
    declarations: Items<Declaration>,
    body: Items<Stmt>,
    count: usize,
}

impl Model for Tree {
    ghost Value = { ProgramTree };

    ghost coded = { Prim.hlevel (codes, stmt.the_row.coded) };

    ghost view = { λ t. tree_of t.rule t.rule_location t.procs t.declarations t.body };

    ghost invariant = { λ t.
        IsTree limit limit (tree_of t.rule t.rule_location t.procs t.declarations t.body)
        × (t.count ≡ length (program_tokens
        (tree_of t.rule t.rule_location t.procs t.declarations t.body))) };
}

impl Tree {
    /// The tree of these parts, which have so many tokens.
    pub fn new(
        rule: Rule,
        rule_location: Location,
        procs: Numeral,
        declarations: Items<Declaration>,
        body: Items<Stmt>,
        count: usize,
    ) -> Tree
        requires stands { IsTree limit limit (tree_of rule rule_location procs declarations body) }
        requires counted { count
            ≡ length (program_tokens (tree_of rule rule_location procs declarations body)) }
        ensures value { result ≡ tree_of rule rule_location procs declarations body }
    {
        Tree {
            rule,
            rule_location,
            procs,
            declarations,
            body,
            count,
        }
    }

    /// The same tree under another rule: nothing else of it changes, the place of the rule's word included.
    pub fn under(self, rule: Rule) -> Tree
        // The tree is the same but for its rule.
        ensures value { result ≡ tree_under rule self }
    {
        Tree { rule, ..self }
    }

    /// The rule of concurrent access.
    pub fn rule(&self) -> Rule
        ensures value { result ≡ self.now.rule }
    {
        self.rule
    }

    /// Where the rule's word stands.
    pub fn rule_location(&self) -> Location
        ensures value { result ≡ self.now.rule_location }
    {
        self.rule_location
    }

    /// The number of processors that the program may use.
    pub fn procs(&self) -> Numeral
        ensures value { result ≡ self.now.procs }
    {
        self.procs
    }

    /// The declarations, in the order of the text.
    pub fn declarations(&self) -> &[Declaration]
        ensures value { result.now ≡ self.now.declarations }
    {
        self.declarations.as_slice()
    }

    /// The statements, in the order of the text.
    pub fn body(&self) -> &[Stmt]
        ensures value { result.now ≡ self.now.body }
    {
        self.body.as_slice()
    }

    /// The number of tokens of the program's text.
    pub fn token_count(&self) -> usize
        ensures value { result ≡ length (program_tokens self.now) }
        // Every tree stands in the grammar, nested at most 64 deep.
        ensures stands { IsTree limit limit self.now }
    {
        self.count
    }
}
