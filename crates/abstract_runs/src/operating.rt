//! Operations on intervals, at their positions.

ghost use Rattle.std.specs.Prelude.{◌≡◌, ◌++◌, ◌∷◌, [], ℤ, None, IfOk, OnOk, true, length};
ghost use Rattle.intervals.specs.Intervals.{IsIn};
ghost use Rattle.pram_values.specs.declared.kind.Kind.TheVariants.{Overflow, DivideByZero};
ghost use Rattle.pram_meaning.specs.Attempt.{Trail, operation};
ghost use Rattle.pram_meaning.specs.Operation as spec;
ghost use Rattle.abstract_runs.specs.Covers.{IsAmong};
ghost use Rattle.abstract_runs.specs.Finding.{MayBy, AreKept};
ghost use Rattle.abstract_runs.specs.Tried.{GoesThrough, IsTried, IsLonger};

use crate::findings::Findings;
use crate::reach::Reach;
use all_inputs::Reason;
use intervals::{Found, Interval};
use pram_trees::{Binary, Prefix};
use pram_values::Kind;
use std::alloc::AllocError;

/// A fault of that kind may come at a position, if it may.
pub(crate) fn note_if(may: bool, kind: Kind, position: usize, reason: Reason, faults: &mut Findings)
    ensures noted { may ≡ true → MayBy kind position faults.new }
    ensures kept { AreKept faults.old faults.new }
{
    if may {
        faults.note(kind, position, reason);
    }
}

// What an operation gives, at the next position, with the faults that it may have.
fn settle(
    found: Found,
    reason: Reason,
    trail: &mut Vec<Option<Reach>>,
    faults: &mut Findings,
) -> Result<Option<Interval>, AllocError>
    ensures value { IfOk result (λ value. value ≡ found.value) }
    ensures trail { OnOk result (trail.new.items ≡ trail.old.items ++ None ∷ []) }
    ensures overflow { OnOk result (found.may_overflow ≡ true → MayBy Overflow (length trail.new.items) faults.new) }
    ensures zero { OnOk result (found.may_divide_by_zero ≡ true → MayBy DivideByZero (length trail.new.items) faults.new) }
    ensures kept { AreKept faults.old faults.new }
{
    trail.push(None)?;
    let here = trail.len();
    note_if(found.may_overflow, Kind::Overflow, here, reason, faults);
    note_if(
        found.may_divide_by_zero,
        Kind::DivideByZero,
        here,
        reason,
        faults,
    );
    Ok(found.value)
}

/// What an operator gives on all operands, at the next position; none where it always faults.
pub fn operate(
    operator: Binary,
    left: Interval,
    right: Interval,
    trail: &mut Vec<Option<Reach>>,
    faults: &mut Findings,
) -> Result<Option<Interval>, AllocError>
    // What the operator gives on members of the two intervals lies in the value, or it fails by a fault that may come.
    ensures tried { IfOk result (λ value. (x y : ℤ) (t : Trail) → IsIn x left → IsIn y right → GoesThrough trail.old.items t →
        IsTried (IsAmong value) trail.new.items faults.new (operation (spec.operate operator x y) t)) }
    // The positions of before stay the first ones.
    ensures longer { OnOk result (IsLonger trail.old.items trail.new.items) }
    // Each fault that might come before may come still.
    ensures kept { AreKept faults.old faults.new }
{
    let found = intervals::operate(operator, left, right);
    let value = settle(
        found,
        Reason::Operands {
            operator,
            left,
            right,
        },
        trail,
        faults,
    )?;
    Ok(value)
}

/// What an operator before any of the operands gives, at the next position; none where it always faults.
pub(crate) fn operate_before(
    operator: Prefix,
    operand: Interval,
    trail: &mut Vec<Option<Reach>>,
    faults: &mut Findings,
) -> Result<Option<Interval>, AllocError>
    ensures tried { IfOk result (λ value. (x : ℤ) (t : Trail) → IsIn x operand → GoesThrough trail.old.items t →
        IsTried (IsAmong value) trail.new.items faults.new (operation (spec.operate_before operator x) t)) }
    ensures longer { OnOk result (IsLonger trail.old.items trail.new.items) }
    ensures kept { AreKept faults.old faults.new }
{
    let found = intervals::operate_before(operator, operand);
    let value = settle(found, Reason::Operand { operator, operand }, trail, faults)?;
    Ok(value)
}
