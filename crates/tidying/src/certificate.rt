//! What is known at each place of code of the registers of other code.

ghost use Rattle.std.specs.Prelude.{◌≡◌};
ghost use Rattle.tidying.specs.Shown as spec;

use superstep_instructions::Side;

/// What is known at a place: for each register of the code a register of the other code that holds the same, uniform ones, those of active
/// processors and those of the others; and whether all processors are under no mask.
#[derive(Drop)]
pub(crate) struct Known {
    pub(crate) uniform: Vec<Option<u16>>,
    pub(crate) active: Vec<Option<u16>>,
    pub(crate) idle: Vec<Option<u16>>,
    pub(crate) all: bool,
}

/// The numbers that registers hold from a first one on, on each side.
#[derive(Drop)]
pub(crate) struct Constants {
    pub(crate) first_uniform: u32,
    pub(crate) uniform: Vec<i64>,
    pub(crate) first_private: u32,
    pub(crate) private: Vec<i64>,
}

/// What is known at each place, the numbers that registers hold whenever it's known where they lie, for each place the register that the
/// other code computes into, and where the place is there.
#[derive(Drop)]
pub(crate) struct Certificate {
    pub(crate) known: Vec<Known>,
    pub(crate) constants: Constants,
    pub(crate) into: Vec<u16>,
    pub(crate) moved: Vec<u16>,
}

/// Where a register lies, by a row of places.
pub(crate) fn place(row: &[Option<u16>], register: u16) -> Option<u16>
    ensures { result ≡ spec.row_of row.now register }
{
    match row.get(register as usize).copied() {
        Some(place) => place,
        None => None,
    }
}

// An item, or 0 where there is none.
pub(crate) fn item(items: &[u16], at: usize) -> u16
    ensures { result ≡ spec.item_of items.now at }
{
    match items.get(at).copied() {
        Some(item) => item,
        None => 0,
    }
}

// The number of a register, if it's one of those from the first on.
fn number_from(first: u32, numbers: &[i64], register: u16) -> Option<i64>
    ensures { result ≡ spec.number_from first numbers.now register }
{
    let register = register as u32;
    if register < first {
        return None;
    }
    numbers.get((register - first) as usize).copied()
}

/// The number of a register, if it has one.
pub(crate) fn number(constants: &Constants, side: Side, register: u16) -> Option<i64>
    ensures { result ≡ spec.number_of constants.now side register }
{
    match side {
        Side::Uniform => number_from(constants.first_uniform, &constants.uniform, register),
        Side::Private => number_from(constants.first_private, &constants.private, register),
    }
}
