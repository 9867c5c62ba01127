//! The printer of trees.

ghost use Rattle.std.specs.Prelude.{◌≡◌, ◌++◌, []};
ghost use Rattle.pram_trees.specs.Blocks.{block_tokens, local_tokens, statement_tokens};
ghost use Rattle.pram_trees.specs.Grammar.{step_tokens, tokens};
ghost use Rattle.text_out.specs.Out.{Writes};
ghost use Rattle.pram_printer.specs.Places.{PrintingReadsBack};
ghost use Rattle.text_out.specs.Printing.{Prints, printing};
ghost use Rattle.pram_trees.specs.Program.{declaration_tokens, declarations_tokens, header_tokens, program_tokens};
ghost use Rattle.pram_printer.specs.Spelling.{spelled, spelling};

use crate::printer::Printer;
use pram_tokens::{Binary, Mark, Name, Opening, Token};
use pram_trees::{Declaration, Expr, Stmt, Tree};
use text_out::{Out, WriteFault};

impl<'a, W: Out> Printer<'a, W> {
    #[cycle(expr)]
    #[tactic(auto, using(crate::proofs::Printed::printed))]
    fn expr(&mut self, e: &Expr)
        ensures same_out { self.new.out.ghost_name ≡ self.old.out.ghost_name }
        ensures prints { Prints (printing (W.Out.state self.old.out.now) self.old.failed)
            (printing (W.Out.state self.new.out.now) self.new.failed)
            (spelling (tokens e.now)) }
    {
        match e {
            Expr::Number(number) => self.number(*number),
            Expr::Name(name) => self.name(name),
            Expr::Element(name, subscript) => self.element(name, subscript.get()),
            Expr::Paren(inner) => {
                self.mark(Mark::OpenParen);
                self.expr(inner.get());
                self.mark(Mark::CloseParen);
            }
            Expr::Prefix(prefix, operand) => {
                self.prefix(*prefix);
                self.expr(operand.get());
            }
            Expr::Chain(first, steps) => {
                self.expr(first.get());
                self.steps(steps.as_slice());
            }
        }
    }

    /// A name and its subscript.
    #[cycle(expr)]
    fn element(&mut self, name: &Name, subscript: &Expr)
        ensures same_out { self.new.out.ghost_name ≡ self.old.out.ghost_name }
        ensures prints { Prints (printing (W.Out.state self.old.out.now) self.old.failed)
            (printing (W.Out.state self.new.out.now) self.new.failed)
            (spelled (Token.Name name.now)
            ++ (spelled (Token.Mark Mark.OpenBracket) ++ (spelling (tokens subscript.now) ++ spelled (Token.Mark Mark.CloseBracket)))) }
    {
        self.name(name);
        self.mark(Mark::OpenBracket);
        self.expr(subscript);
        self.mark(Mark::CloseBracket);
    }

    /// Operators, each with the operand behind it.
    #[cycle(expr)]
    fn steps(&mut self, steps: &[(Binary, Expr)])
        ensures same_out { self.new.out.ghost_name ≡ self.old.out.ghost_name }
        ensures prints { Prints (printing (W.Out.state self.old.out.now) self.old.failed)
            (printing (W.Out.state self.new.out.now) self.new.failed)
            (spelling (step_tokens steps.now)) }
    {
        for step in steps {
            self.binary(step.0);
            self.expr(&step.1);
        }
    }

    #[cycle(block)]
    fn statements(&mut self, statements: &[Stmt])
        ensures same_out { self.new.out.ghost_name ≡ self.old.out.ghost_name }
        ensures prints { Prints (printing (W.Out.state self.old.out.now) self.old.failed)
            (printing (W.Out.state self.new.out.now) self.new.failed)
            (spelling (block_tokens statements.now)) }
    {
        for statement in statements {
            self.statement(statement);
        }
    }

    #[cycle(block)]
    fn statement(&mut self, statement: &Stmt)
        ensures same_out { self.new.out.ghost_name ≡ self.old.out.ghost_name }
        ensures prints { Prints (printing (W.Out.state self.old.out.now) self.old.failed)
            (printing (W.Out.state self.new.out.now) self.new.failed)
            (spelling (statement_tokens statement.now)) }
    {
        match statement {
            Stmt::Assign { target, value } => {
                self.name(target);
                self.assigned(value);
            }
            Stmt::AssignElement {
                target,
                subscript,
                value,
            } => {
                self.element(target, subscript);
                self.assigned(value);
            }
            Stmt::Print { location: _, value } => {
                self.opening(Opening::Print);
                self.expr(value);
                self.mark(Mark::Semicolon);
            }
            Stmt::While {
                location: _,
                test,
                body,
            } => {
                self.opening(Opening::While);
                self.expr(test);
                self.mark(Mark::Do);
                self.statements(body.as_slice());
                self.mark(Mark::End);
            }
            Stmt::If {
                location: _,
                test,
                then_part,
                else_part,
            } => {
                self.opening(Opening::If);
                self.expr(test);
                self.mark(Mark::Then);
                self.statements(then_part.as_slice());
                match else_part {
                    Some(body) => {
                        self.mark(Mark::Else);
                        self.statements(body.as_slice());
                        self.mark(Mark::End);
                    }
                    None => self.mark(Mark::End),
                }
            }
            Stmt::For {
                location: _,
                variable,
                low,
                high,
                body,
            } => {
                self.opening(Opening::For);
                self.turns(variable, low, high);
                self.statements(body.as_slice());
                self.mark(Mark::End);
            }
            Stmt::Pardo {
                location: _,
                low,
                index,
                high,
                locals,
                body,
            } => {
                self.opening(Opening::For);
                self.range(low, index, high);
                self.locals(locals.as_slice());
                self.statements(body.as_slice());
                self.mark(Mark::End);
            }
        }
    }

    /// What is assigned.
    fn assigned(&mut self, value: &Expr)
        ensures same_out { self.new.out.ghost_name ≡ self.old.out.ghost_name }
        ensures prints { Prints (printing (W.Out.state self.old.out.now) self.old.failed)
            (printing (W.Out.state self.new.out.now) self.new.failed)
            (spelled (Token.Mark Mark.Becomes) ++ (spelling (tokens value.now) ++ spelled (Token.Mark Mark.Semicolon))) }
    {
        self.mark(Mark::Becomes);
        self.expr(value);
        self.mark(Mark::Semicolon);
    }

    /// The values of a loop, one after the other.
    fn turns(&mut self, variable: &Name, low: &Expr, high: &Expr)
        ensures same_out { self.new.out.ghost_name ≡ self.old.out.ghost_name }
        ensures prints { Prints (printing (W.Out.state self.old.out.now) self.old.failed)
            (printing (W.Out.state self.new.out.now) self.new.failed)
            (spelled (Token.Name variable.now)
            ++ (spelled (Token.Mark Mark.Becomes)
            ++ (spelling (tokens low.now) ++ (spelled (Token.Mark Mark.To)
            ++ (spelling (tokens high.now) ++ spelled (Token.Mark Mark.Do)))))) }
    {
        self.name(variable);
        self.mark(Mark::Becomes);
        self.expr(low);
        self.mark(Mark::To);
        self.expr(high);
        self.mark(Mark::Do);
    }

    /// The indices of a pardo.
    fn range(&mut self, low: &Expr, index: &Name, high: &Expr)
        ensures same_out { self.new.out.ghost_name ≡ self.old.out.ghost_name }
        ensures prints { Prints (printing (W.Out.state self.old.out.now) self.old.failed)
            (printing (W.Out.state self.new.out.now) self.new.failed)
            (spelling (tokens low.now) ++ (spelled (Token.Binary Binary.AtMost)
            ++ (spelled (Token.Name index.now)
            ++ (spelled (Token.Binary Binary.AtMost) ++ (spelling (tokens high.now) ++ spelled (Token.Mark Mark.Pardo)))))) }
    {
        self.expr(low);
        self.binary(Binary::AtMost);
        self.name(index);
        self.binary(Binary::AtMost);
        self.expr(high);
        self.mark(Mark::Pardo);
    }

    fn locals(&mut self, locals: &[Name])
        ensures same_out { self.new.out.ghost_name ≡ self.old.out.ghost_name }
        ensures prints { Prints (printing (W.Out.state self.old.out.now) self.old.failed)
            (printing (W.Out.state self.new.out.now) self.new.failed)
            (spelling (local_tokens locals.now)) }
    {
        for local in locals {
            self.mark(Mark::Local);
            self.name(local);
            self.mark(Mark::Semicolon);
        }
    }

    fn declaration(&mut self, declaration: &Declaration)
        ensures same_out { self.new.out.ghost_name ≡ self.old.out.ghost_name }
        ensures prints { Prints (printing (W.Out.state self.old.out.now) self.old.failed)
            (printing (W.Out.state self.new.out.now) self.new.failed)
            (spelling (declaration_tokens declaration.now)) }
    {
        match declaration {
            Declaration::Cell(name) => {
                self.mark(Mark::Shared);
                self.name(name);
                self.mark(Mark::Semicolon);
            }
            Declaration::Array(name, low, high) => {
                self.mark(Mark::Shared);
                self.name(name);
                self.mark(Mark::OpenBracket);
                self.number(*low);
                self.mark(Mark::Range);
                self.number(*high);
                self.mark(Mark::CloseBracket);
                self.mark(Mark::Semicolon);
            }
            Declaration::Uniform(name) => {
                self.mark(Mark::Var);
                self.name(name);
                self.mark(Mark::Semicolon);
            }
        }
    }

    fn declarations(&mut self, declarations: &[Declaration])
        ensures same_out { self.new.out.ghost_name ≡ self.old.out.ghost_name }
        ensures prints { Prints (printing (W.Out.state self.old.out.now) self.old.failed)
            (printing (W.Out.state self.new.out.now) self.new.failed)
            (spelling (declarations_tokens declarations.now)) }
    {
        for declaration in declarations {
            self.declaration(declaration);
        }
    }

    fn header(&mut self, tree: &Tree)
        ensures same_out { self.new.out.ghost_name ≡ self.old.out.ghost_name }
        ensures prints { Prints (printing (W.Out.state self.old.out.now) self.old.failed)
            (printing (W.Out.state self.new.out.now) self.new.failed)
            (spelling (header_tokens tree.now.rule tree.now.rule_location tree.now.procs [])) }
    {
        self.mark(Mark::Rule);
        self.put(tree.rule().word().as_bytes(), b' ');
        self.mark(Mark::Semicolon);
        self.mark(Mark::Procs);
        self.number(tree.procs());
        self.mark(Mark::Semicolon);
    }

    fn tree(&mut self, tree: &Tree)
        ensures same_out { self.new.out.ghost_name ≡ self.old.out.ghost_name }
        ensures prints { Prints (printing (W.Out.state self.old.out.now) self.old.failed)
            (printing (W.Out.state self.new.out.now) self.new.failed)
            (spelling (program_tokens tree.now)) }
    {
        self.header(tree);
        self.declarations(tree.declarations());
        self.mark(Mark::Begin);
        self.statements(tree.body());
        self.mark(Mark::End);
    }
}

/// Writes the canonical spelling of a tree: each of its tokens, and behind it the end of a line if
/// it is `;`, `begin`, `do`, `then`, `else`, `pardo` or `end`, and else one space. Numbers are
/// decimal, without leading zeros.
///
/// `WriteFault` (E17) says that the writer failed. What it took is a beginning of the spelling.
pub fn print_tree<W: Out>(tree: &Tree, out: &mut W) -> Result<(), WriteFault>
    // The tree's one spelling is written, all of it, or a beginning of it and then the writer failed.
    ensures written { Writes (W.Out.state out.old) (W.Out.state out.new)
        (spelling (program_tokens tree.now)) result }
{
    let mut printer = Printer { out, failed: false };
    printer.tree(tree);
    let Printer { failed, .. } = printer;
    if failed { Err(WriteFault) } else { Ok(()) }
}

/// What `print_tree` writes is the text of a program that is the same tree but for offsets and
/// lines. So `parse` finds that tree, unless memory is refused.
pub fn printing_reads_back()
    // A tree's spelling of at most 1,048,576 bytes is the text of the same tree, but for offsets and lines.
    ensures reads_back { PrintingReadsBack }
{}
