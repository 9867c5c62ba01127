//! Attempts at assignments, of all that see what is known.

ghost use Rattle.std.specs.Prelude.{◌≡◌, ℤ, [], IfOk, OnOk};
ghost use Rattle.intervals.specs.Intervals.{IsIn};
ghost use Rattle.pram_model.specs.Layout.{cell_of};
ghost use Rattle.pram_meaning.specs.Store.{View};
ghost use Rattle.pram_meaning.specs.Attempt.{Trail, and_then, attempt, attempt_assign, attempt_step, attempt_value, write};
ghost use Rattle.abstract_runs.specs.Covers.{Shows};
ghost use Rattle.abstract_runs.specs.Effects.{IsGivenBy};
ghost use Rattle.abstract_runs.specs.Finding.{AreKept};
ghost use Rattle.abstract_runs.specs.Tried.{GoesThrough, IsTried, IsLonger};

use crate::attempt::value_of;
use crate::effect::Effect;
use crate::findings::Findings;
use crate::operating::note_if;
use crate::outlook::Outlook;
use crate::placing::cells_at;
use crate::reach::Reach;
use all_inputs::Reason;
use intervals::Interval;
use pram_check::{Expression, StepTarget, Target};
use pram_values::Kind;
use std::alloc::AllocError;

// A write of a value to the cell at a subscript, at the next position. None where each is out of range.
fn write_at(
    known: &Outlook,
    entry: usize,
    subscript: Interval,
    value: Interval,
    trail: &mut Vec<Option<Reach>>,
    faults: &mut Findings,
) -> Result<Option<Effect>, AllocError>
    ensures tried { IfOk result (λ effect. (s : View) (t : Trail) (z v : ℤ) → Shows known.now s → IsIn z subscript → IsIn v value →
        GoesThrough trail.old.items t → IsTried (IsGivenBy effect) trail.new.items faults.new
        (write (cell_of s.layout entry z) t v)) }
    ensures longer { OnOk result (IsLonger trail.old.items trail.new.items) }
    ensures kept { AreKept faults.old faults.new }
{
    let place = cells_at(known.layout, entry, subscript);
    trail.push(None)?;
    note_if(
        place.may_be_outside,
        Kind::OutOfRange,
        trail.len(),
        Reason::Subscript { entry, subscript },
        faults,
    );
    match place.reach {
        Some(reach) => Ok(Some(Effect {
            value,
            reach: Some(reach),
        })),
        None => Ok(None),
    }
}

/// A value that goes to no cell.
pub fn value_alone(
    known: &Outlook,
    e: &Expression,
    trail: &mut Vec<Option<Reach>>,
    faults: &mut Findings,
) -> Result<Option<Effect>, AllocError>
    requires { trail.old.items ≡ [] }
    // The attempt of each that sees what is known gives such a value or fails by a fault that may come.
    ensures tried { IfOk result (λ effect. (s : View) → Shows known.now s → IsTried (IsGivenBy effect) trail.new.items faults.new
        (attempt_value s e.now)) }
    // Each fault that might come before may come still.
    ensures kept { AreKept faults.old faults.new }
{
    match value_of(known, e, trail, faults)? {
        Some(value) => Ok(Some(Effect { value, reach: None })),
        None => Ok(None),
    }
}

// The value, and then the write.
fn value_written(
    known: &Outlook,
    entry: usize,
    subscript: Interval,
    e: &Expression,
    trail: &mut Vec<Option<Reach>>,
    faults: &mut Findings,
) -> Result<Option<Effect>, AllocError>
    ensures tried { IfOk result (λ effect. (s : View) (t : Trail) (z : ℤ) → Shows known.now s → IsIn z subscript →
        GoesThrough trail.old.items t → IsTried (IsGivenBy effect) trail.new.items faults.new
        (and_then (attempt s e.now t) (write (cell_of s.layout entry z)))) }
    ensures longer { OnOk result (IsLonger trail.old.items trail.new.items) }
    ensures kept { AreKept faults.old faults.new }
{
    match value_of(known, e, trail, faults)? {
        Some(value) => {
            let effect = write_at(known, entry, subscript, value, trail, faults)?;
            Ok(effect)
        }
        None => Ok(None),
    }
}

// The subscript, the value and then the write.
fn element_written(
    known: &Outlook,
    entry: usize,
    subscript: &Expression,
    e: &Expression,
    trail: &mut Vec<Option<Reach>>,
    faults: &mut Findings,
) -> Result<Option<Effect>, AllocError>
    requires { trail.old.items ≡ [] }
    ensures tried { IfOk result (λ effect. (s : View) → Shows known.now s → IsTried (IsGivenBy effect) trail.new.items faults.new
        (and_then (attempt s subscript.now []) (λ t z. and_then (attempt s e.now t) (write (cell_of s.layout entry z))))) }
    ensures kept { AreKept faults.old faults.new }
{
    match value_of(known, subscript, trail, faults)? {
        Some(z) => {
            let effect = value_written(known, entry, z, e, trail, faults)?;
            Ok(effect)
        }
        None => Ok(None),
    }
}

/// An attempt at an assignment inside pardo: what it gives, none where it faults whatever is seen.
pub fn step_assignment(
    known: &Outlook,
    target: &StepTarget,
    e: &Expression,
    trail: &mut Vec<Option<Reach>>,
    faults: &mut Findings,
) -> Result<Option<Effect>, AllocError>
    requires { trail.old.items ≡ [] }
    // The attempt of each that sees what is known reads along the trail, and gives such a value for such a cell or fails by
    // a fault that may come.
    ensures tried { IfOk result (λ effect. (s : View) → Shows known.now s → IsTried (IsGivenBy effect) trail.new.items faults.new
        (attempt_step s target.now e.now)) }
    // Each fault that might come before may come still.
    ensures kept { AreKept faults.old faults.new }
{
    match target {
        StepTarget::Local(_) => value_alone(known, e, trail, faults),
        StepTarget::Cell(a) => value_written(known, *a, Interval::point(0), e, trail, faults),
        StepTarget::Element(a, subscript) => {
            element_written(known, *a, subscript, e, trail, faults)
        }
    }
}

/// An attempt at an assignment outside pardo: what it gives, none where it faults whatever is seen.
pub fn assignment(
    known: &Outlook,
    target: &Target,
    e: &Expression,
    trail: &mut Vec<Option<Reach>>,
    faults: &mut Findings,
) -> Result<Option<Effect>, AllocError>
    requires { trail.old.items ≡ [] }
    // The attempt of each that sees what is known reads along the trail, and gives such a value for such a cell or fails by
    // a fault that may come.
    ensures tried { IfOk result (λ effect. (s : View) → Shows known.now s → IsTried (IsGivenBy effect) trail.new.items faults.new
        (attempt_assign s target.now e.now)) }
    // Each fault that might come before may come still.
    ensures kept { AreKept faults.old faults.new }
{
    match target {
        Target::Uniform(_) => value_alone(known, e, trail, faults),
        Target::Cell(a) => value_written(known, *a, Interval::point(0), e, trail, faults),
        Target::Element(a, subscript) => element_written(known, *a, subscript, e, trail, faults),
    }
}
