//! Registers by number. One that was never set is 0, also where there is no place for it yet.

ghost use Rattle.std.specs.Prelude.{◌≡◌, ◌≤◌, ◌<◌, ◌^◌, length, FitsSigned, OnOk, OnErr};
ghost use Rattle.std.specs.Int.{w64};
ghost use Rattle.superstep_machine.specs.Parts.{set_register};
ghost use Rattle.superstep_machine.specs.Steps as spec;
ghost use Rattle.instruction_steps.specs.Views.{registers_of};

use pram_values::Kind;
use std::alloc::AllocError;

/// The value at a place; 0 where there is none.
#[inline(always)]
pub fn value_at(values: &[i64], place: usize) -> i64
    ensures value { result ≡ registers_of values.now place }
    ensures fits { FitsSigned w64 result }
{
    match values.get(place) {
        Some(value) => *value,
        None => 0,
    }
}

/// The value of a register.
#[inline(always)]
pub fn register(registers: &[i64], number: u16) -> i64
    ensures { result ≡ registers_of registers.now number }
{
    value_at(registers, number as usize)
}

// Places for that many more values than there are.
#[cold]
#[inline(never)]
fn grow(values: &mut Vec<i64>, count: usize) -> Result<(), AllocError>
    requires more { length values.old.items < count }
    ensures room { OnOk result (count ≤ length values.new.items) }
    ensures same { OnOk result (registers_of values.new.items ≡ registers_of values.old.items) }
{
    values.resize(count, 0)?;
    Ok(())
}

/// There are places for so many values. The error comes where memory was refused, which is asked for only where there are fewer.
#[inline(always)]
pub fn make_room(values: &mut Vec<i64>, count: usize) -> Result<(), AllocError>
    ensures room { OnOk result (count ≤ length values.new.items) }
    ensures same { OnOk result (registers_of values.new.items ≡ registers_of values.old.items) }
    ensures kept { OnOk result (length values.old.items ≤ length values.new.items) }
    ensures refused { OnErr result (length values.old.items < count) }
{
    if values.len() < count {
        grow(values, count)?;
    }
    Ok(())
}

/// A register gets a value. The error comes where memory was refused, which is asked for only where the register has no place yet.
#[inline(always)]
pub fn set_number(registers: &mut Vec<i64>, number: u16, value: i64) -> Result<(), AllocError>
    ensures after { OnOk result (registers_of registers.new.items ≡ set_register number value (registers_of registers.old.items)) }
    ensures kept { OnOk result (length registers.old.items ≤ length registers.new.items) }
    ensures refused { OnErr result (length registers.old.items < 2 ^ 16) }
{
    let place = number as usize;
    make_room(registers, place + 1)?;
    registers[place] = value;
    Ok(())
}

/// A register gets what was computed for it, and 0 for a fault.
pub fn set_result(
    registers: &mut Vec<i64>,
    computed: Option<(u16, Result<i64, Kind>)>,
) -> Result<(), AllocError>
    ensures after { OnOk result (registers_of registers.new.items ≡ spec.with_result computed (registers_of registers.old.items)) }
    ensures kept { OnOk result (length registers.old.items ≤ length registers.new.items) }
    ensures refused { OnErr result (length registers.old.items < 2 ^ 16) }
{
    match computed {
        None => Ok(()),
        Some((number, Ok(value))) => set_number(registers, number, value),
        Some((number, Err(_))) => set_number(registers, number, 0),
    }
}

/// A register gets 0 at once where there is no cell to read.
pub fn zero_without(
    registers: &mut Vec<i64>,
    cell: Option<u32>,
    number: u16,
) -> Result<(), AllocError>
    ensures after { OnOk result (registers_of registers.new.items ≡ spec.zero_without cell number (registers_of registers.old.items)) }
    ensures kept { OnOk result (length registers.old.items ≤ length registers.new.items) }
    ensures refused { OnErr result (length registers.old.items < 2 ^ 16) }
{
    match cell {
        None => set_number(registers, number, 0),
        Some(_) => Ok(()),
    }
}
