//! Intervals that grow to marks, so that they grow a few times only.

ghost use Rattle.std.specs.Prelude.{◌≡◌, ◌≤ℤ◌, ◌<ℤ◌, ◌<◌, ◌⊎◌};
ghost use Rattle.intervals.specs.Intervals.{IsWithin};
ghost use Rattle.intervals.specs.Widening.{IsMarkBelow, IsMarkAbove, marks_outside};

use crate::interval::Interval;

// The greater of two marks, of which the first is at most a value, that are at most it.
fn nearer_below(found: i64, mark: i64, value: i64) -> i64
    requires { found ≤ℤ value }
    ensures at_most { result ≤ℤ value }
    ensures is_one { (result ≡ found) ⊎ (result ≡ mark) }
    ensures kept { found ≤ℤ result }
    ensures nearest { mark ≤ℤ value → mark ≤ℤ result }
{
    if mark <= found || value < mark {
        found
    } else {
        mark
    }
}

// The greatest mark that is at most a value.
fn mark_below(value: i64, marks: &[i64]) -> i64
    ensures { IsMarkBelow marks.now value result }
{
    let mut found = i64::MIN;
    for mark in marks {
        found = nearer_below(found, *mark, value);
    }
    found
}

// The less of two marks, of which the first is at least a value, that are at least it.
fn nearer_above(found: i64, mark: i64, value: i64) -> i64
    requires { value ≤ℤ found }
    ensures at_least { value ≤ℤ result }
    ensures is_one { (result ≡ found) ⊎ (result ≡ mark) }
    ensures kept { result ≤ℤ found }
    ensures nearest { value ≤ℤ mark → result ≤ℤ mark }
{
    if found <= mark || mark < value {
        found
    } else {
        mark
    }
}

// The least mark that is at least a value.
fn mark_above(value: i64, marks: &[i64]) -> i64
    ensures { IsMarkAbove marks.now value result }
{
    let mut found = i64::MAX;
    for mark in marks {
        found = nearer_above(found, *mark, value);
    }
    found
}

// The lower end: the old one, if the new one isn't below it, else a mark.
fn lower(old: i64, new: i64, marks: &[i64]) -> i64
    ensures old { result ≤ℤ old }
    ensures new { result ≤ℤ new }
    ensures same { old ≤ℤ new → result ≡ old }
    ensures moved { new <ℤ old → IsMarkBelow marks.now new result }
{
    if old <= new {
        return old;
    }
    mark_below(new, marks)
}

// The upper end: the old one, if the new one isn't above it, else a mark.
fn upper(old: i64, new: i64, marks: &[i64]) -> i64
    ensures old { old ≤ℤ result }
    ensures new { new ≤ℤ result }
    ensures same { new ≤ℤ old → result ≡ old }
    ensures moved { old <ℤ new → IsMarkAbove marks.now new result }
{
    if new <= old {
        return old;
    }
    mark_above(new, marks)
}

// An interval that holds both, with ends that are those of the old one or marks.
fn grown(old: Interval, new: Interval, marks: &[i64]) -> Interval
    ensures old { IsWithin old result }
    ensures new { IsWithin new result }
    ensures least_stays { old.least ≤ℤ new.least → result.least ≡ old.least }
    ensures least_moves { new.least <ℤ old.least → IsMarkBelow marks.now new.least result.least }
    ensures greatest_stays { new.greatest ≤ℤ old.greatest → result.greatest ≡ old.greatest }
    ensures greatest_moves { old.greatest <ℤ new.greatest → IsMarkAbove marks.now new.greatest result.greatest }
{
    let least = lower(old.least(), new.least(), marks);
    let greatest = upper(old.greatest(), new.greatest(), marks);
    Interval::from_to(least, greatest)
}

/// An interval that holds both, whose ends are those of the old one or marks: the nearest, or the ends of 64 bits.
pub fn widened(old: Interval, new: Interval, marks: &[i64]) -> Interval
    // The result holds the old interval.
    ensures old { IsWithin old result }
    // The result holds the new interval.
    ensures new { IsWithin new result }
    // A lower end that need not move stays.
    ensures least_stays { old.least ≤ℤ new.least → result.least ≡ old.least }
    // A lower end that moves stands at the nearest mark below, or at the least number of 64 bits.
    ensures least_moves { new.least <ℤ old.least → IsMarkBelow marks.now new.least result.least }
    // An upper end that need not move stays.
    ensures greatest_stays { new.greatest ≤ℤ old.greatest → result.greatest ≡ old.greatest }
    // An upper end that moves stands at the nearest mark above, or at the greatest number of 64 bits.
    ensures greatest_moves { old.greatest <ℤ new.greatest → IsMarkAbove marks.now new.greatest result.greatest }
    // Either the new interval is within the old one, or fewer marks are left outside.
    ensures ends { IsWithin new old ⊎ (marks_outside marks.now result < marks_outside marks.now old) }
{
    grown(old, new, marks)
}
