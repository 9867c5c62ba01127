//! The names of locals and of uniform variables, by their numbers.

ghost use Rattle.std.specs.Prelude.{◌≡◌};
ghost use Rattle.help.specs.Locals as spec;

use pram_trees::{Declaration, Location, Name, Stmt, Tree};

// These locals, if the pardo begins at or before the place, and else those found so far.
fn pardo_locals<'a>(at: u32, begins: Location, locals: &'a [Name], found: &'a [Name]) -> &'a [Name]
    ensures { result.now ≡ spec.pardo_locals at begins locals.now found.now }
{
    if begins.offset <= at { locals } else { found }
}

// The locals of the last pardo within a statement that begins at or before the place, and where none does, those found so far.
#[cycle(finding)]
fn find_in_statement<'a>(at: u32, statement: &'a Stmt, found: &'a [Name]) -> &'a [Name]
    ensures { result.now ≡ spec.statement_locals at statement.now found.now }
{
    match statement {
        Stmt::Assign { .. } => found,
        Stmt::AssignElement { .. } => found,
        Stmt::Print { .. } => found,
        Stmt::While { body, .. } => find_in_block(at, body.as_slice(), found),
        Stmt::If {
            then_part,
            else_part,
            ..
        } => {
            let behind = find_in_block(at, then_part.as_slice(), found);
            match else_part {
                None => behind,
                Some(other) => find_in_block(at, other.as_slice(), behind),
            }
        }
        Stmt::For { body, .. } => find_in_block(at, body.as_slice(), found),
        Stmt::Pardo {
            location,
            locals,
            body,
            ..
        } => {
            let mine = pardo_locals(at, *location, locals.as_slice(), found);
            find_in_block(at, body.as_slice(), mine)
        }
    }
}

#[cycle(finding)]
fn find_in_block<'a>(at: u32, body: &'a [Stmt], found: &'a [Name]) -> &'a [Name]
    ensures { result.now ≡ spec.block_locals at body.now found.now }
{
    let mut last = found;
    for statement in body {
        last = find_in_statement(at, statement, last);
    }
    last
}

/// The locals of the pardo in which a statement stands that begins at this offset of a program's text, in the order of their declaration:
/// those of the last pardo that begins there or before.
pub(crate) fn locals_at<'a>(tree: &'a Tree, at: u32) -> &'a [Name]
    // They are the locals of the pardo in which the statement at this offset stands.
    ensures { result.now ≡ spec.locals_at tree.now at }
{
    find_in_block(at, tree.body(), &[])
}

/// The name of the local of that number, counted from 0, of the pardo in which a statement stands that begins at this offset of a
/// program's text. It is empty where there is no such local.
pub fn local_name<'a>(tree: &'a Tree, at: u32, number: usize) -> &'a [u8]
    // It is the name of the local of this number of the pardo in which the statement at this offset stands.
    ensures { result.now ≡ spec.local_name tree.now at number }
{
    match locals_at(tree, at).get(number) {
        None => b"",
        Some(x) => x.text.as_slice(),
    }
}

/// The name of the uniform variable of that number in the order of declarations, counted from 0. It is empty where there is no such
/// variable.
pub fn variable_name<'a>(tree: &'a Tree, number: usize) -> &'a [u8]
    // It is the name of the uniform variable of this number.
    ensures { result.now ≡ spec.variable_name tree.now number }
{
    let mut left = number;
    for d in tree.declarations() {
        if let Declaration::Uniform(x) = d {
            if left == 0 {
                return x.text.as_slice();
            }
            left -= 1;
        }
    }
    b""
}
