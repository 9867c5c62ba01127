//! The check of a certificate.

ghost use Rattle.std.specs.Prelude.{◌≡◌, ◌<◌, ◌^◌, ◌⊎◌, true};
ghost use Rattle.tidying.specs.Rows.{Refines, all_zero};
ghost use Rattle.tidying.specs.Certificates.{AreRefined, IsCertified, IsKept, IsLeftOut, IsLike, opening_rows};
ghost use Rattle.tidying.specs.Shown.{number_of, row_of, rows_of, shown};

use crate::certificate::{Certificate, Constants, Known, item};
use crate::check::{is_kept, is_left_out};
use crate::rows::all_zero;
use superstep_instructions::{Code, Instr, Side};

// Whether all that a row says is known while all registers are 0.
fn is_zero(there: &[Option<u16>], constants: &Constants, side: Side) -> bool
    ensures { result ≡ true → Refines (row_of there.now) (all_zero (number_of constants.now side)) }
{
    if there.len() > 65536 {
        return false;
    }
    for s in 0..there.len() {
        if let Some(place) = there[s] {
            match all_zero(constants, side, s as u16) {
                Some(other) if place == other => {}
                _ => return false,
            }
        }
    }
    true
}

// Whether what is known of the first place is known at the beginning.
fn opens(c: &Certificate) -> bool
    ensures { result ≡ true → AreRefined ((shown c.now).at 0) (opening_rows (shown c.now)) }
{
    match c.known.get(0) {
        Some(known) => {
            is_zero(&known.uniform, &c.constants, Side::Uniform)
                && is_zero(&known.active, &c.constants, Side::Private)
                && is_zero(&known.idle, &c.constants, Side::Private)
        }
        None => false,
    }
}

// Whether both codes have an instruction, or the other hasn't got it, as the certificate says.
fn is_right(c: &Certificate, short: &Code, at: usize, instr: Instr) -> bool
    requires { at < 2 ^ 16 }
    ensures { result ≡ true → IsKept (shown c.now) short.now at instr ⊎ IsLeftOut (shown c.now) at instr }
{
    is_kept(c, short, at, instr) || is_left_out(c, at, instr)
}

/// Whether the shorter code runs as the longer by this certificate.
pub(crate) fn is_certified(c: &Certificate, long: &Code, short: &Code) -> bool
    requires { IsLike long.now short.now }
    ensures { result ≡ true → IsCertified (shown c.now) long.now short.now }
{
    if item(&c.moved, 0) != 0 {
        return false;
    }
    if !opens(c) {
        return false;
    }
    let instructions = long.instructions();
    for at in 0..instructions.len() {
        if !is_right(c, short, at, instructions[at]) {
            return false;
        }
    }
    true
}
