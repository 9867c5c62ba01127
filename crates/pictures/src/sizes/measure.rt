//! Where sizes and numbers stand in a panel.

ghost use Rattle.std.specs.Prelude.{◌≡◌, ◌≤◌, ◌<◌, ◌^◌};
ghost use Rattle.pictures.specs.Sizes.Picture as picture;
ghost use Rattle.pictures.specs.Sizes.Places as spec;

use crate::sizes::frame::Frame;
use sweeps::{Ending, Measure, SizeRow};

// No more rows are drawn.
const MOST_ROWS: usize = 64;

const UNITS: [u64; 20] = [
    1,
    10,
    100,
    1000,
    10000,
    100000,
    1000000,
    10000000,
    100000000,
    1000000000,
    10000000000,
    100000000000,
    1000000000000,
    10000000000000,
    100000000000000,
    1000000000000000,
    10000000000000000,
    100000000000000000,
    1000000000000000000,
    10000000000000000000,
];

/// The rows that are drawn.
pub(crate) fn drawn(rows: &[SizeRow]) -> &[SizeRow]
    ensures { result.now ≡ spec.drawn rows.now }
{
    if rows.len() > MOST_ROWS {
        rows.split_at(MOST_ROWS).0
    } else {
        rows
    }
}

// Where a size stands on the doubling scale, by the last power of two that is no more, and its exponent.
fn place_of(size: u64, power: u64, log: u32) -> u32
    requires some { 0 < power }
    requires no_more { power ≤ size }
    requires bits { log < 64 }
    ensures { result ≡ spec.place_of size power log }
{
    let rest = u128::from(size - power) * 1024 / u128::from(power);
    1024 * log + rest.min(1023) as u32
}

fn place(size: u64) -> u32
    ensures { result ≡ spec.place size }
{
    if size == 0 {
        return 0;
    }
    let log = size.ilog2();
    place_of(size, 2u64.pow(log), log)
}

fn low_place(rows: &[SizeRow]) -> u32
    ensures { result ≡ spec.low_place rows.now }
{
    let mut low = 65536u32;
    for row in rows {
        low = low.min(place(row.size));
    }
    low
}

fn high_place(rows: &[SizeRow]) -> u32
    ensures { result ≡ spec.high_place rows.now }
{
    let mut high = 0u32;
    for row in rows {
        high = high.max(place(row.size));
    }
    high
}

/// A run's number, up to where it went; 0 where there is no run.
pub(crate) fn number_of(measure: Measure, ending: &Ending) -> u64
    ensures { result ≡ spec.number_of measure ending.now }
{
    match ending {
        Ending::Ended(counts) => measure.number(counts),
        Ending::GoesOn(counts) => measure.number(counts),
        Ending::Faulted(counts, _) => measure.number(counts),
        Ending::Refused(_) => 0,
    }
}

fn most_of(measure: Measure, rows: &[SizeRow]) -> u64
    ensures { result ≡ spec.most_of measure rows.now }
{
    let mut most = 0u64;
    for row in rows {
        most = most.max(number_of(measure, &row.ending));
    }
    most
}

/// What a panel of these rows is drawn by.
pub(crate) fn frame_of(measure: Measure, base: u32, rows: &[SizeRow]) -> Frame
    ensures { result ≡ picture.frame_of measure base rows.now }
{
    Frame {
        measure,
        most: most_of(measure, rows),
        low: low_place(rows),
        high: high_place(rows),
        base,
    }
}

// The first of 1, 2 and 5 times the units that is no less.
fn rounded_up(number: u64) -> u128
    ensures rounded { result ≡ spec.rounded_up spec.units number }
    ensures fits { result < 2 ^ 67 }
{
    for unit in &UNITS {
        let unit = u128::from(*unit);
        if u128::from(number) <= unit {
            return unit;
        }
        if u128::from(number) <= 2 * unit {
            return 2 * unit;
        }
        if u128::from(number) <= 5 * unit {
            return 5 * unit;
        }
    }
    u128::from(number)
}

/// What stands at the upper end of an axis.
pub(crate) fn top(most: u64) -> u128
    ensures top { result ≡ spec.top most }
    ensures some { 0 < result }
    ensures fits { result < 2 ^ 67 }
{
    rounded_up(most).max(1)
}

/// Where a size stands.
pub(crate) fn x_of(frame: Frame, size: u64) -> u64
    ensures { result ≡ spec.x_of frame size }
{
    let along = u64::from(place(size).saturating_sub(frame.low));
    let span = u64::from(frame.high.saturating_sub(frame.low).max(1));
    184 + (along * 480 / span).min(480)
}

/// Where a number stands.
pub(crate) fn y_of(frame: Frame, number: u128) -> u64
    requires small { number < 2 ^ 100 }
    ensures y { result ≡ spec.y_of frame number }
    ensures low { result < 2 ^ 32 }
{
    let tall = (number * 150 / top(frame.most)).min(150) as u64;
    u64::from(frame.base).saturating_sub(tall)
}

/// Where a run's mark stands.
pub(crate) fn mark_y(frame: Frame, ending: &Ending) -> u64
    ensures { result ≡ spec.mark_y frame ending.now }
{
    y_of(frame, u128::from(number_of(frame.measure, ending)))
}
