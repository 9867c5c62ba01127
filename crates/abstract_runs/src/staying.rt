//! Whether a statement inside pardo may change its processors.

ghost use Rattle.std.specs.Prelude.{◌≡◌, false};
ghost use Rattle.abstract_runs.specs.Staying.{AreStaying, IsStaying};

use pram_check::{Step, StepTarget};

/// Whether a statement, or one within it, assigns to a local.
#[cycle(staying)]
pub(crate) fn sets_local(s: &Step) -> bool
    // Where none does, all processors are as they were behind it.
    ensures { result ≡ false → IsStaying s.now }
{
    match s {
        Step::Assign { target, .. } => match target {
            StepTarget::Local(_) => true,
            StepTarget::Cell(_) | StepTarget::Element(_, _) => false,
        },
        Step::While { body, .. } => set_local(body),
        Step::If {
            then_part,
            else_part,
            ..
        } => {
            if set_local(then_part) {
                return true;
            }
            set_local(else_part)
        }
    }
}

// Whether one of the statements does.
#[cycle(staying)]
fn set_local(body: &Vec<Step>) -> bool
    ensures { result ≡ false → AreStaying body.now.items }
{
    for s in body {
        if sets_local(s) {
            return true;
        }
    }
    false
}
