//! Attempts at the bounds of a pardo.

ghost use Rattle.std.specs.Prelude.{◌≡◌, ◌-◌, ◌+ℤ◌, pos, FitsSigned, [], IfOk, IfErr, IfSome, IsSomeAnd, OnOk};
ghost use Rattle.std.specs.Int.{w64};
ghost use Rattle.pram_meaning.specs.Store.{View};
ghost use Rattle.pram_meaning.specs.Attempt as spec;
ghost use Rattle.pram_meaning.specs.Attempt.{Trail, attempt_range};
ghost use Rattle.pram_model.specs.Layout.{width};
ghost use Rattle.abstract_runs.specs.Covers.{Shows};
ghost use Rattle.abstract_runs.specs.Finding.{AreKept};
ghost use Rattle.all_inputs.specs.declared.undecided.Undecided.TheVariants.{OpenBounds};
ghost use Rattle.abstract_runs.specs.Halting.{AreOpen, Halts};
ghost use Rattle.abstract_runs.specs.Tried.{GoesThrough, IsTried, IsLonger};

use crate::bounds::bounds;
use crate::findings::Findings;
use crate::gathering::count_of;
use crate::halt::Halt;
use crate::outlook::Outlook;
use crate::reach::Reach;
use all_inputs::Reason;
use pram_check::Expression;
use pram_values::Kind;
use std::alloc::AllocError;

// How many indices there are between two bounds, at the next position.
fn ranged(
    procs: u32,
    first: i64,
    last: i64,
    trail: &mut Vec<Option<Reach>>,
    faults: &mut Findings,
) -> Result<Option<(i64, u32)>, AllocError>
    ensures tried { IfOk result (λ found. (t : Trail) → GoesThrough trail.old.items t →
        IsTried (λ p. IsSomeAnd found (λ q. p ≡ (q.0, q.1))) trail.new.items faults.new (spec.ranged procs first (width first last) t)) }
    ensures fits { IfOk result (λ found. IfSome found (λ q. FitsSigned w64 (q.0 +ℤ pos (q.1 - 1)))) }
    ensures longer { OnOk result (IsLonger trail.old.items trail.new.items) }
    ensures kept { AreKept faults.old faults.new }
{
    trail.push(None)?;
    let Some(count) = count_of(procs, first, last) else {
        faults.note(Kind::TooWide, trail.len(), Reason::Width { first, last });
        return Ok(None);
    };
    Ok(Some((first, count)))
}

/// The first index of a pardo and how many there are, where both bounds are known as numbers; none where each attempt at them faults.
pub(crate) fn range(
    known: &Outlook,
    line: u32,
    procs: u32,
    low: &Expression,
    high: &Expression,
    trail: &mut Vec<Option<Reach>>,
    faults: &mut Findings,
) -> Result<Option<(i64, u32)>, Halt>
    requires { trail.old.items ≡ [] }
    // The attempt of each that sees what is known gives these two, or fails by a fault that may come.
    ensures tried { IfOk result (λ found. (s : View) → Shows known.now s →
        IsTried (λ p. IsSomeAnd found (λ q. p ≡ (q.0, q.1))) trail.new.items faults.new (attempt_range procs s low.now high.now)) }
    // It halts for want of memory, or since one of the bounds isn't written as a number.
    ensures halts { IfErr result (Halts (λ u. (u ≡ OpenBounds line) × AreOpen low.now high.now)) }
    // The last index is a number of 64 bits.
    ensures fits { IfOk result (λ found. IfSome found (λ q. FitsSigned w64 (q.0 +ℤ pos (q.1 - 1)))) }
    // Each fault that might come before may come still.
    ensures kept { AreKept faults.old faults.new }
{
    let Some((first, last)) = bounds(known, line, low, high, trail, faults)? else {
        return Ok(None);
    };
    let found = ranged(procs, first, last, trail, faults)?;
    Ok(found)
}
