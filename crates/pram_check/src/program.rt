//! Checked programs.

ghost use Rattle.std.specs.Prelude.{◌≡◌, IfOk, IfErr};
ghost use Rattle.pram_names.specs.Breaches.{breaches, Tells};
ghost use Rattle.pram_check.specs.Bounded.{IsBounded};
ghost use Rattle.pram_check.specs.Checked.{IsResolved};
ghost use Rattle.pram_check.specs.Faults.{IsAccepted};
ghost use Rattle.pram_check.specs.OtherRule.{under};

use crate::resolve::{Parts, resolve};
use pram_names::{CheckFault, Statement};
use pram_trees::{Layout, Rule, Tree};
use std::alloc::Global;
use std::marker::Model;

/// An accepted program. It is made by [`check`] alone.
#[derive(Drop)]
pub struct Program {
    tree: Tree,
    parts: Parts,
}

impl Model for Program {
    ghost use Rattle.std.specs.Coded.{codes};
    ghost use Rattle.pram_check.specs.Checked.{Checked, IsResolved, checked};
    ghost use Rattle.pram_check.specs.Faults.{IsAccepted};
    ghost use Rattle.pram_names.specs.contracts.body.Statement as statement;
    ghost use Rattle.pram_trees.specs.contracts.tree.Stmt as stmt;

    ghost Value = { Checked };

    ghost coded = { Prim.hlevel (codes, statement.the_row.coded, stmt.the_row.coded) };

    ghost view = { λ p. checked p.tree p.parts.procs p.parts.layout p.parts.uniforms p.parts.body.items };

    ghost invariant = { λ p.
        IsAccepted p.tree × IsResolved
        (checked p.tree p.parts.procs p.parts.layout p.parts.uniforms p.parts.body.items) };
}

/// The program of a tree, with its names resolved.
///
/// The tree is given back, unchanged, beside the first thing that is wrong with it (E6 to E10), or
/// where memory was refused (E16).
#[tactic(auto, using(crate::proofs::ProgramFaults::accepted))]
pub fn check(alloc: Global, tree: Tree) -> Result<Program, (CheckFault, Tree)>
    // The program's tree is the one that was given.
    ensures tree { IfOk result (λ p. p.tree ≡ tree) }
    // A program is made only of a tree in which nothing is wrong.
    ensures accepted { IfOk result (λ p. IsAccepted tree) }
    // The program says what its tree says.
    ensures says { IfOk result IsResolved }
    // The refusal is the first thing that is wrong with the tree, or memory was refused.
    ensures refused { IfErr result (λ e. Tells (breaches tree) e.0) }
    // The refused tree is given back as it was.
    ensures kept { IfErr result (λ e. e.1 ≡ tree) }
{
    match resolve(alloc, &tree) {
        Ok(parts) => Ok(Program { tree, parts }),
        Err(fault) => Err((fault, tree)),
    }
}

impl Program {
    /// The same program under another rule. Whether a program is accepted doesn't depend on its rule.
    pub fn under(self, rule: Rule) -> Program
        // The program is the same but for its rule, in its tree too, and so accepted.
        ensures value { result ≡ under rule self }
    {
        let Program { tree, parts } = self;
        Program {
            tree: tree.under(rule),
            parts,
        }
    }

    /// The tree that was checked.
    pub fn tree(&self) -> &Tree
        ensures tree { result.now ≡ self.now.tree }
        // Nothing is wrong with the tree of a program.
        ensures accepted { IsAccepted self.now.tree }
        // Every program says what its tree says.
        ensures says { IsResolved self.now }
    {
        &self.tree
    }

    /// Every program is within bounds: what its body names is declared, no statement has more than
    /// eight shared reads, statements nest at most 64 deep, and there is no more of it than there
    /// are tokens in its text.
    pub fn bounded(&self)
        // Names are declared for their use, statements have at most eight shared reads and 64 levels, and the program's
        // size is at most its count of tokens, at most 16,384.
        ensures bounded { IsBounded self.now }
    {
        let _count = self.tree.token_count();
    }

    /// The rule of concurrent access.
    pub fn rule(&self) -> Rule
        ensures { result ≡ self.now.rule }
    {
        self.tree.rule()
    }

    /// The most processors that a pardo may have.
    pub fn procs(&self) -> u32
        ensures { result ≡ self.now.procs }
    {
        self.parts.procs
    }

    /// The shared declarations.
    pub fn layout(&self) -> &Layout
        ensures { result.now ≡ self.now.layout }
    {
        &self.parts.layout
    }

    /// The shared declarations alone. The rest of the program is let go.
    pub fn into_layout(self) -> Layout
        ensures { result ≡ self.layout }
    {
        let Program { tree: _, parts } = self;
        let Parts { layout, .. } = parts;
        layout
    }

    /// How many uniform variables there are.
    pub fn uniforms(&self) -> usize
        ensures { result ≡ self.now.uniforms }
    {
        self.parts.uniforms
    }

    /// The body, whose names are resolved.
    pub fn body(&self) -> &[Statement]
        ensures { result.now ≡ self.now.body }
    {
        self.parts.body.as_slice()
    }
}
