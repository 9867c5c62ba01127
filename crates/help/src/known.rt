//! Names with what they are declared as.

ghost use Rattle.std.specs.Prelude.{◌≡◌};
ghost use Rattle.help.specs.InScope as spec;

use pram_trees::{Declaration, Name};

/// As what a name is declared.
#[derive(Clone, Copy, Debug, PartialEq, Eq)]
pub enum Sort {
    /// `shared s;`
    Cell,
    /// `shared a[1..4];`
    Array,
    /// `var x;`
    Variable,
    /// The index of a pardo.
    Index,
    /// A local of a pardo.
    Local,
}

/// A name in scope, the line of its declaration, counted from 1, and as what it is declared there.
#[derive(Clone, Copy)]
pub struct Known<'a> {
    pub name: &'a [u8],
    pub line: u32,
    pub sort: Sort,
}

/// A name as it is known where it is declared.
pub(crate) fn as_declared(x: &Name, sort: Sort) -> Known<'_>
    ensures { spec.known_is result ≡ spec.as_declared x.now sort }
{
    Known {
        name: x.text.as_slice(),
        line: x.location.line,
        sort,
    }
}

/// The name of a declaration.
pub(crate) fn declared_name(d: &Declaration) -> &Name
    ensures { result.now ≡ spec.declared_name d.now }
{
    match d {
        Declaration::Cell(x) => x,
        Declaration::Array(x, _, _) => x,
        Declaration::Uniform(x) => x,
    }
}

/// As what it is declared.
pub(crate) fn declared_sort(d: &Declaration) -> Sort
    ensures { result ≡ spec.declared_sort d.now }
{
    match d {
        Declaration::Cell(_) => Sort::Cell,
        Declaration::Array(_, _, _) => Sort::Array,
        Declaration::Uniform(_) => Sort::Variable,
    }
}
