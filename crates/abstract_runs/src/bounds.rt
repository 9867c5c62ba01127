//! Attempts at the bounds of a `for` and of a pardo, of all that see what is known.

ghost use Rattle.std.specs.Prelude.{◌≡◌, ◌≢◌, ℤ, [], IfOk, IfErr, IsSomeAnd};
ghost use Rattle.pram_meaning.specs.Store.{View};
ghost use Rattle.pram_meaning.specs.Attempt.{attempt_bounds};
ghost use Rattle.intervals.specs.Intervals.{IsIn};
ghost use Rattle.abstract_runs.specs.Covers.{Shows};
ghost use Rattle.abstract_runs.specs.Finding.{AreKept};
ghost use Rattle.all_inputs.specs.declared.undecided.Undecided.TheVariants.{OpenBounds};
ghost use Rattle.abstract_runs.specs.declared.halt.Halt.TheVariants as variant;
ghost use Rattle.abstract_runs.specs.Halting.{AreOpen, Halts};
ghost use Rattle.abstract_runs.specs.Tried.{IsTried};

use crate::attempt::value_of;
use crate::findings::Findings;
use crate::halt::Halt;
use crate::outlook::Outlook;
use crate::reach::Reach;
use all_inputs::Undecided;
use intervals::Interval;
use pram_check::Expression;

// The one number of an interval, if it has just one.
fn number_in(value: Interval, line: u32) -> Result<i64, Halt>
    ensures number { IfOk result (λ n. (z : ℤ) → IsIn z value → z ≡ n) }
    ensures halts { IfErr result (λ h. (h ≡ variant.Undecided (OpenBounds line)) × (value.least ≢ value.greatest)) }
{
    if value.is_point() {
        Ok(value.least())
    } else {
        Err(Halt::Undecided(Undecided::OpenBounds { line }))
    }
}

/// The two bounds, the low one first, where both are known as numbers; none where each attempt at them faults.
pub(crate) fn bounds(
    known: &Outlook,
    line: u32,
    low: &Expression,
    high: &Expression,
    trail: &mut Vec<Option<Reach>>,
    faults: &mut Findings,
) -> Result<Option<(i64, i64)>, Halt>
    requires { trail.old.items ≡ [] }
    // The attempt of each that sees what is known gives these two, or fails by a fault that may come.
    ensures tried { IfOk result (λ found. (s : View) → Shows known.now s →
        IsTried (λ p. IsSomeAnd found (λ q. p ≡ (q.0, q.1))) trail.new.items faults.new (attempt_bounds s low.now high.now)) }
    // It halts for want of memory, or since one of the bounds isn't written as a number.
    ensures halts { IfErr result (Halts (λ u. (u ≡ OpenBounds line) × AreOpen low.now high.now)) }
    // Each fault that might come before may come still.
    ensures kept { AreKept faults.old faults.new }
{
    let Some(a) = value_of(known, low, trail, faults)? else {
        return Ok(None);
    };
    let Some(b) = value_of(known, high, trail, faults)? else {
        return Ok(None);
    };
    let first = number_in(a, line)?;
    let last = number_in(b, line)?;
    Ok(Some((first, last)))
}
