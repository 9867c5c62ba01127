//! What is known behind an instruction.

ghost use Rattle.std.specs.Prelude.{◌≡◌, ◌||◌, not, ◌&&◌};
ghost use Rattle.tidying.specs.Rows as row;
ghost use Rattle.tidying.specs.Certificates as spec;
ghost use Rattle.tidying.specs.Shown.{number_of, row_of, rows_of};
ghost use Rattle.tidying.specs.Shown as shown;

use crate::certificate::{Constants, Known, number, place};
use superstep_instructions::{Instr, Side};

/// Which registers are spoken of: uniform ones, those of active processors, or those of the others.
#[derive(Clone, Copy)]
pub(crate) enum Part {
    Uniform,
    Active,
    Idle,
}

// A place, unless it's `into`.
fn unless(into: u16, place: Option<u16>) -> Option<u16>
    ensures { result ≡ row.unless into place }
{
    match place {
        Some(other) if into != other => Some(other),
        _ => None,
    }
}

// Where a register lies behind a result for `destination` that the other code has put into `into`.
fn put_into(fits: bool, destination: u16, into: u16, cells: &[Option<u16>], s: u16) -> Option<u16>
    ensures { result ≡ row.put_into fits destination into (row_of cells.now) s }
{
    if destination == s {
        return if fits { Some(into) } else { None };
    }
    unless(into, place(cells, s))
}

// Where a register lies behind a read for `destination`.
fn asked_into(destination: u16, cells: &[Option<u16>], s: u16) -> Option<u16>
    ensures { result ≡ row.asked_into destination (row_of cells.now) s }
{
    if destination == s {
        return place(cells, s);
    }
    unless(destination, place(cells, s))
}

// Where a register lies once `destination` got, in the one code alone, what lies at a place.
fn left_at(
    fits: bool,
    destination: u16,
    there: Option<u16>,
    cells: &[Option<u16>],
    s: u16,
) -> Option<u16>
    ensures { result ≡ row.left_at fits destination there (row_of cells.now) s }
{
    if destination == s {
        return if fits { there } else { None };
    }
    place(cells, s)
}

// Where a register lies, if that is its own place.
fn in_place(cells: &[Option<u16>], s: u16) -> Option<u16>
    ensures { result ≡ row.in_place (row_of cells.now) s }
{
    match place(cells, s) {
        Some(other) if s == other => Some(other),
        _ => None,
    }
}

// Where a register lies, if that is one place by both rows.
fn in_both(active: &[Option<u16>], idle: &[Option<u16>], s: u16) -> Option<u16>
    ensures { result ≡ row.in_both (row_of active.now) (row_of idle.now) s }
{
    match (place(active, s), place(idle, s)) {
        (Some(one), Some(other)) if one == other => Some(other),
        _ => None,
    }
}

/// Where a register lies while all are 0.
pub(crate) fn all_zero(constants: &Constants, side: Side, s: u16) -> Option<u16>
    ensures { result ≡ row.all_zero (number_of constants.now side) s }
{
    match number(constants, side, s) {
        Some(_) => None,
        None => Some(s),
    }
}

// Whether an instruction gives that number, if there is one.
fn gives(number: Option<i64>, instr: Instr) -> bool
    ensures { result ≡ spec.gives number instr }
{
    match number {
        None => true,
        Some(number) => match instr {
            Instr::Set { value, .. } => number == value,
            _ => false,
        },
    }
}

// Whether a register holds that number.
fn holds(held: Option<i64>, number: i64) -> bool
    ensures { result ≡ spec.holds held number }
{
    match held {
        None => false,
        Some(held) => held == number,
    }
}

/// The register of a side that gets the result of an instruction.
pub(crate) fn result_of(asked: Side, instr: Instr) -> Option<u16>
    ensures { result ≡ spec.result_of asked instr }
{
    match instr {
        Instr::Set {
            side,
            destination,
            ..
        }
        | Instr::Copy {
            side,
            destination,
            ..
        }
        | Instr::Negate {
            side,
            destination,
            ..
        }
        | Instr::Calculate {
            side,
            destination,
            ..
        }
        | Instr::Decide {
            side,
            destination,
            ..
        }
        | Instr::Not {
            side,
            destination,
            ..
        } => match (asked, side) {
            (Side::Uniform, Side::Uniform) | (Side::Private, Side::Private) => Some(destination),
            _ => None,
        },
        Instr::CopyUniform { destination, .. } | Instr::Index { destination } => match asked {
            Side::Uniform => None,
            Side::Private => Some(destination),
        },
        _ => None,
    }
}

// Where a register of a side lies behind an instruction that works on registers.
fn resulted(
    constants: &Constants,
    side: Side,
    into: u16,
    instr: Instr,
    cells: &[Option<u16>],
    s: u16,
) -> Option<u16>
    ensures { result ≡ spec.resulted (number_of constants.now side) into instr (spec.result_of side instr) (row_of cells.now) s }
{
    match result_of(side, instr) {
        None => place(cells, s),
        Some(destination) => {
            let fits = gives(number(constants, side, destination), instr);
            put_into(fits, destination, into, cells, s)
        }
    }
}

// Where a uniform register lies behind an instruction of both codes.
fn uniform_then(
    constants: &Constants,
    into: u16,
    known: &Known,
    instr: Instr,
    s: u16,
) -> Option<u16>
    ensures { result ≡ spec.uniform_then (number_of constants.now) into (rows_of known.now) instr s }
{
    match instr {
        Instr::Ask {
            side: Side::Uniform,
            destination,
            ..
        } => asked_into(destination, &known.uniform, s),
        Instr::Vote { destination } => {
            let fits = number(constants, Side::Uniform, destination).is_none();
            put_into(fits, destination, destination, &known.uniform, s)
        }
        Instr::Reply => in_place(&known.uniform, s),
        _ => resulted(constants, Side::Uniform, into, instr, &known.uniform, s),
    }
}

// Where a register of an active processor does.
fn active_then(constants: &Constants, into: u16, known: &Known, instr: Instr, s: u16) -> Option<u16>
    ensures { result ≡ spec.active_then (number_of constants.now) into (rows_of known.now) instr s }
{
    match instr {
        Instr::Ask {
            side: Side::Private,
            destination,
            ..
        } => asked_into(destination, &known.active, s),
        Instr::Reply => in_place(&known.active, s),
        Instr::Enter { .. } | Instr::Leave => all_zero(constants, Side::Private, s),
        Instr::Flip | Instr::Unmask => in_both(&known.active, &known.idle, s),
        _ => resulted(constants, Side::Private, into, instr, &known.active, s),
    }
}

// Where a register of another processor does, where there may be one.
fn idle_then(constants: &Constants, known: &Known, instr: Instr, s: u16) -> Option<u16>
    ensures { result ≡ spec.idle_then (number_of constants.now) (rows_of known.now) instr s }
{
    match instr {
        Instr::Reply => in_place(&known.idle, s),
        Instr::Enter { .. } | Instr::Leave => all_zero(constants, Side::Private, s),
        Instr::Mask { .. } | Instr::Flip | Instr::Unmask => in_both(&known.active, &known.idle, s),
        _ => place(&known.idle, s),
    }
}

// Where a register of a part lies behind an instruction of both codes.
fn kept(
    part: Part,
    constants: &Constants,
    into: u16,
    known: &Known,
    instr: Instr,
    s: u16,
) -> Option<u16>
    ensures { result ≡ shown.part_of part (spec.rows_then (number_of constants.now) into (rows_of known.now) instr) s }
{
    match part {
        Part::Uniform => uniform_then(constants, into, known, instr, s),
        Part::Active => active_then(constants, into, known, instr, s),
        Part::Idle => {
            if known.all {
                active_then(constants, into, known, instr, s)
            } else {
                idle_then(constants, known, instr, s)
            }
        }
    }
}

// Where a register of a side lies behind an instruction that the other code hasn't got.
fn row_left(
    constants: &Constants,
    side: Side,
    into: u16,
    cells: &[Option<u16>],
    instr: Instr,
    s: u16,
) -> Option<u16>
    ensures { result ≡ spec.row_left side (number_of constants.now side) into (row_of cells.now) instr s }
{
    match (side, instr) {
        (
            Side::Uniform,
            Instr::Set {
                side: Side::Uniform,
                destination,
                value,
            },
        )
        | (
            Side::Private,
            Instr::Set {
                side: Side::Private,
                destination,
                value,
            },
        ) => {
            let fits = number(constants, side, destination).is_none()
                && holds(number(constants, side, into), value);
            left_at(fits, destination, place(cells, into), cells, s)
        }
        (
            Side::Uniform,
            Instr::Copy {
                side: Side::Uniform,
                destination,
                source,
            },
        )
        | (
            Side::Private,
            Instr::Copy {
                side: Side::Private,
                destination,
                source,
            },
        ) => {
            let fits = number(constants, side, destination).is_none();
            left_at(fits, destination, place(cells, source), cells, s)
        }
        _ => place(cells, s),
    }
}

// Where a register of a part does.
fn left(
    part: Part,
    constants: &Constants,
    into: u16,
    known: &Known,
    instr: Instr,
    s: u16,
) -> Option<u16>
    ensures { result ≡ shown.part_of part (spec.rows_without (number_of constants.now) into (rows_of known.now) instr) s }
{
    match part {
        Part::Uniform => row_left(constants, Side::Uniform, into, &known.uniform, instr, s),
        Part::Active => row_left(constants, Side::Private, into, &known.active, instr, s),
        Part::Idle => {
            if known.all {
                row_left(constants, Side::Private, into, &known.active, instr, s)
            } else {
                place(&known.idle, s)
            }
        }
    }
}

/// Where a register of a part lies behind an instruction, which the other code has, or hasn't got.
pub(crate) fn behind(
    without: bool,
    part: Part,
    constants: &Constants,
    into: u16,
    known: &Known,
    instr: Instr,
    s: u16,
) -> Option<u16>
    ensures { result ≡ shown.part_of part (shown.rows_behind without (number_of constants.now) into (rows_of known.now) instr) s }
{
    if without {
        left(part, constants, into, known, instr, s)
    } else {
        kept(part, constants, into, known, instr, s)
    }
}

/// Whether all processors are under no mask behind an instruction, by whether they were before.
pub(crate) fn all_behind(without: bool, all: bool, instr: Instr) -> bool
    ensures { result ≡ shown.all_behind without all instr }
{
    if without {
        return all;
    }
    match instr {
        Instr::Enter { .. } | Instr::Leave => true,
        Instr::Mask { .. } | Instr::Flip | Instr::Unmask => false,
        _ => all,
    }
}
