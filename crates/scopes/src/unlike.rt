//! Declarations of a postcondition that can't get what they are named after.

ghost use Rattle.std.specs.Prelude.{◌≡◌, ◌<◌, IfNone, IfSome, Some, length, slice_get, take, true, false};
ghost use Rattle.std.specs.List.{All};
ghost use Rattle.pram_model.specs.Layout.{SharedEntry};
ghost use Rattle.scopes.specs.Handed as spec;

use crate::sources::{are_same_bounds, source};
use pram_check::Program;
use pram_trees::Layout;

// Whether a declaration has another's name and other bounds.
fn is_unlike(layout: &Layout, asked: &Layout, i: usize) -> bool
    requires { i < length asked.now }
    ensures { IfSome (slice_get asked.now i) (λ e. result ≡ spec.is_unlike layout.now e) }
{
    match source(layout, asked.name(i)) {
        None => false,
        Some(source) => !are_same_bounds(source.bounds, asked.bounds(i)),
    }
}

/// The first declaration of a postcondition, by its number, that has the name of one of the program's, or `opening_` and such a name, and
/// other bounds than it. A name that the program declares itself is the program's own, also where it begins with `opening_`.
pub fn first_unlike(program: &Program, postcondition: &Program) -> Option<usize>
    // The declaration that is told has other bounds than the one that it is named after.
    ensures unlike { IfSome result (λ i. (i < length postcondition.now.layout) ×
        IfSome (slice_get postcondition.now.layout i) (λ e. spec.is_unlike program.now.layout e ≡ true)) }
    // No declaration before the one that is told has.
    ensures first { IfSome result (λ i. All (λ e. spec.is_unlike program.now.layout e ≡ false) (take i postcondition.now.layout)) }
    // None is told only where no declaration has.
    ensures none { IfNone result (All (λ e. spec.is_unlike program.now.layout e ≡ false) postcondition.now.layout) }
{
    let asked = postcondition.layout();
    for i in 0..asked.len() {
        if is_unlike(program.layout(), asked, i) {
            return Some(i);
        }
    }
    None
}
