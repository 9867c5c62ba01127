//! Expressions that have one value for all processors of a statement.

ghost use Rattle.std.specs.Prelude.{◌≡◌, true};
ghost use Rattle.abstract_runs.specs.Alike.{IsAlike};

use pram_check::Expression;

/// Whether an expression names neither the index nor a local: `true` says so.
pub(crate) fn is_alike(e: &Expression) -> bool
    // Then all that see the same uniform variables and cells make the same attempt at it.
    ensures { result ≡ true → IsAlike e.now }
{
    match e {
        Expression::Number(_) => true,
        Expression::Uniform(_) => true,
        Expression::Index => false,
        Expression::Local(_) => false,
        Expression::Cell(_) => true,
        Expression::Element(_, subscript) => is_alike(subscript),
        Expression::Prefix(_, operand) => is_alike(operand),
        Expression::Chain(first, links) => {
            if !is_alike(first) {
                return false;
            }
            for link in links {
                if !is_alike(&link.operand) {
                    return false;
                }
            }
            true
        }
    }
}
