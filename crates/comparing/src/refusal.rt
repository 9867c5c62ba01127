//! Why two programs aren't compared.

ghost use Rattle.std.specs.Prelude.{◌≡◌, map};
ghost use Rattle.comparing.specs.Found as spec;

use pram_check::Program;

/// One of two programs that are compared, or the precondition.
#[derive(Clone, Copy, Debug, PartialEq, Eq)]
pub enum Side {
    First,
    Second,
    Precondition,
}

/// Why two programs aren't compared.
#[derive(Clone, Copy, Debug, PartialEq, Eq)]
pub enum ComparisonRefusal {
    /// An input has more values than this one has cells (E11).
    InputTooLong(Side),
    /// The allocator refused memory (E16).
    OutOfMemory,
}

// Whether a precondition has fewer cells than so many values.
fn has_fewer(precondition: &Option<Program>, count: usize) -> bool
    ensures { result ≡ spec.has_fewer precondition.now count }
{
    match precondition {
        None => false,
        Some(program) => (program.layout().cells() as usize) < count,
    }
}

/// The first of two programs that has fewer cells than so many values, or else the precondition, where it has.
pub(crate) fn too_long(
    first: &Program,
    second: &Program,
    precondition: &Option<Program>,
    count: usize,
) -> Option<Side>
    ensures { result ≡ spec.too_long precondition.now first.now second.now count }
{
    if (first.layout().cells() as usize) < count {
        Some(Side::First)
    } else if (second.layout().cells() as usize) < count {
        Some(Side::Second)
    } else if has_fewer(precondition, count) {
        Some(Side::Precondition)
    } else {
        None
    }
}

/// The most values of any input, and 0 where there is none.
pub fn longest(inputs: &[Vec<i64>]) -> usize
    ensures { result ≡ spec.longest (map spec.values_of inputs.now) }
{
    let mut most = 0;
    for input in inputs {
        most = most.max(input.len());
    }
    most
}
