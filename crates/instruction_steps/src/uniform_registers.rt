//! Uniform registers that have a place.

ghost use Rattle.std.specs.Prelude.{◌≡◌, ◌<◌, length};
ghost use Rattle.superstep_machine.specs.Parts.{set_register};
ghost use Rattle.superstep_machine.specs.Steps as spec;
ghost use Rattle.instruction_steps.specs.Views.{registers_of, IsPlaced};

use pram_values::Kind;

/// A register gets a value, where it has a place.
#[inline(always)]
pub fn put_number(registers: &mut [i64], number: u16, value: i64)
    requires place { number < length registers.old }
    ensures value { registers_of registers.new ≡ set_register number value (registers_of registers.old) }
    ensures count { length registers.new ≡ length registers.old }
{
    registers[number as usize] = value;
}

// A register gets what was computed for it, and 0 for a fault.
pub(crate) fn put_result(registers: &mut [i64], computed: Option<(u16, Result<i64, Kind>)>)
    requires place { IsPlaced (length registers.old) computed }
    ensures value { registers_of registers.new ≡ spec.with_result computed (registers_of registers.old) }
    ensures count { length registers.new ≡ length registers.old }
{
    match computed {
        None => {}
        Some((number, Ok(value))) => put_number(registers, number, value),
        Some((number, Err(_))) => put_number(registers, number, 0),
    }
}

// A register gets 0 at once where there is no cell to read.
pub(crate) fn put_zero_without(registers: &mut [i64], cell: Option<u32>, number: u16)
    requires place { number < length registers.old }
    ensures value { registers_of registers.new ≡ spec.zero_without cell number (registers_of registers.old) }
    ensures count { length registers.new ≡ length registers.old }
{
    match cell {
        None => put_number(registers, number, 0),
        Some(_) => {}
    }
}
