//! What an instruction does to the uniform part.

ghost use Rattle.std.specs.Prelude.{◌≡◌, ◌<◌, ◌≤◌, ◌+◌, ◌^◌, ◌++◌, ◌∷◌, [], true, None, OnOk, OnErr, IfOk, length, FitsSigned};
ghost use Rattle.std.specs.Int.{w64};
ghost use Rattle.superstep_machine.specs.Parts.{opening_part};
ghost use Rattle.superstep_instructions.specs.declared.instr.Instr.TheVariants as instr_is;
ghost use Rattle.superstep_instructions.specs.declared.instr.Side.TheVariants as side_is;
ghost use Rattle.superstep_machine.specs.Steps as spec;
ghost use Rattle.instruction_steps.specs.Views.{uniform_of, moment_is, read_is, HasRoom, HasPlaces, KeepsReserve, IsShort};

use crate::arithmetic::computed_on;
use crate::range::range_width;
use crate::read::{Moment, Read};
use crate::registers::{make_room, register};
use crate::uniform::UniformState;
use crate::uniform_registers::{put_result, put_zero_without};
use pram_values::Kind;
use prepared_division::RecentDivisors;
use smallvec::SmallVec;
use std::alloc::{AllocError, Global};
use superstep_instructions::{Code, Instr, Side};

/// The uniform part at the beginning, with places for so many registers. The error comes where memory was refused.
pub fn open_uniform(alloc: Global, places: u32) -> Result<UniformState, AllocError>
    ensures value { IfOk result (λ u. uniform_of u ≡ opening_part) }
    ensures places { IfOk result (λ u. places ≤ length u.registers.items) }
{
    let mut registers = Vec::new(alloc);
    make_room(&mut registers, places as usize)?;
    Ok(UniformState {
        count: 0,
        line: 0,
        registers,
        low: 0,
        width: 0,
        asks: SmallVec::new(alloc),
        awaited: SmallVec::new(alloc),
        put: None,
        output: Vec::new(alloc),
        reserved: false,
        divisors: RecentDivisors::none(),
    })
}

/// The present statement, at that position.
pub fn moment_of(u: &UniformState, position: u32) -> Moment
    ensures { moment_is result ≡ spec.moment_of (uniform_of u.now) position }
{
    Moment {
        count: u.count,
        line: u.line,
        position,
    }
}

/// The index of the v-th processor of the range.
pub fn index_of(u: &UniformState, v: u32) -> i64
    requires { v < u.now.width }
    ensures value { result ≡ spec.index_of (uniform_of u.now) v }
    ensures fits { FitsSigned w64 result }
{
    u.low + i64::from(v)
}

/// A statement begins.
pub fn begin_statement(u: &mut UniformState, line: u32)
    requires room { u.old.count + 1 < 2 ^ 32 }
    ensures after { uniform_of u.new ≡ record (uniform_of u.old) { count = u.old.count + 1; line = line } }
    ensures reserve { KeepsReserve u.old u.new }
{
    u.count += 1;
    u.line = line;
}

// The range begins. The answer is what is wrong in it.
fn enter(u: &mut UniformState, code: &Code, low: u16, high: u16, position: u32) -> Option<Kind>
    ensures after { uniform_of u.new ≡ spec.on_uniform code.now (instr_is.Enter low high position) (uniform_of u.old) }
    ensures reserve { KeepsReserve u.old u.new }
    ensures wrong { result ≡ spec.wrong_uniform code.now (instr_is.Enter low high position) (uniform_of u.old) }
{
    let first = register(&u.registers, low);
    let last = register(&u.registers, high);
    match range_width(code.procs(), first, last) {
        Ok(width) => {
            u.low = first;
            u.width = width;
            None
        }
        Err(kind) => {
            u.low = first;
            u.width = 0;
            Some(kind)
        }
    }
}

// The range ends.
fn leave(u: &mut UniformState)
    ensures after { uniform_of u.new ≡ record (uniform_of u.old) { width = 0 } }
    ensures reserve { KeepsReserve u.old u.new }
{
    u.width = 0;
}

/// A range begins or ends. The answer is what is wrong in it: it is empty then.
pub fn change_range(u: &mut UniformState, code: &Code, instr: Instr) -> Option<Kind>
    requires renews { spec.renews instr ≡ true }
    ensures after { uniform_of u.new ≡ spec.on_uniform code.now instr (uniform_of u.old) }
    ensures wrong { result ≡ spec.wrong_uniform code.now instr (uniform_of u.old) }
    ensures reserve { KeepsReserve u.old u.new }
{
    match instr {
        Instr::Enter {
            low,
            high,
            position,
        } => enter(u, code, low, high, position),
        Instr::Leave => {
            leave(u);
            None
        }
        _ => unreachable!(),
    }
}

// A read is held. Memory is asked for only from the ninth on, and the error comes where it was refused.
fn hold(asks: &mut SmallVec<Read, 8>, read: Read) -> Result<(), AllocError>
    ensures held { OnOk result (asks.new.items ≡ asks.old.items ++ read ∷ []) }
    ensures refused { OnErr result (8 ≤ length asks.old.items) }
{
    let _at_least_eight = asks.capacity();
    asks.push(read)?;
    Ok(())
}

// A read of the uniform part is held.
fn ask_uniform(
    u: &mut UniformState,
    code: &Code,
    destination: u16,
    entry: u16,
    subscript: u16,
    position: u32,
) -> Result<(), AllocError>
    requires place { destination < length u.old.registers.items }
    ensures after { OnOk result (uniform_of u.new ≡ spec.on_uniform code.now
        (instr_is.Ask side_is.Uniform destination entry subscript position) (uniform_of u.old)) }
    ensures reserve { OnOk result (KeepsReserve u.old u.new) }
    ensures refused { OnErr result (IsShort (instr_is.Ask side_is.Uniform destination entry subscript position) u.old) }
{
    let cell = code
        .layout()
        .cell(entry as usize, register(&u.registers, subscript));
    let moment = moment_of(u, position);
    put_zero_without(u.registers.as_mut_slice(), cell, destination);
    let read = Read {
        side: Side::Uniform,
        destination,
        moment,
        cell,
    };
    hold(&mut u.asks, read)
}

// A read of the processors is held.
fn ask_private(u: &mut UniformState, destination: u16, position: u32) -> Result<(), AllocError>
    ensures after { OnOk result (uniform_of u.new ≡ spec.held_read (uniform_of u.old) (record {
      side = side_is.Private;
      destination = destination;
      moment = spec.moment_of (uniform_of u.old) position;
      cell = None;
    })) }
    ensures reserve { OnOk result (KeepsReserve u.old u.new) }
    ensures refused { OnErr result (IsShort (instr_is.Ask side_is.Private destination 0 0 position) u.old) }
{
    let moment = moment_of(u, position);
    let read = Read {
        side: Side::Private,
        destination,
        moment,
        cell: None,
    };
    hold(&mut u.asks, read)
}

/// An item of the output.
#[inline(never)]
pub(crate) fn print(u: &mut UniformState, source: u16) -> Result<(), AllocError>
    ensures after { OnOk result (uniform_of u.new ≡ record (uniform_of u.old) {
      output = (uniform_of u.old).output
          ++ (u.old.count, (uniform_of u.old).registers source) ∷ [];
    }) }
    ensures reserve { OnOk result (KeepsReserve u.old u.new) }
    ensures refused { OnErr result (IsShort (instr_is.Print source) u.old) }
{
    let value = register(&u.registers, source);
    let count = u.count;
    if u.reserved && u.output.len() == u.output.capacity() {
        return Err(AllocError);
    }
    u.output.push((count, value))?;
    Ok(())
}

/// What an instruction does to the uniform part. The error comes where memory was refused, which only an item asks for for which the output
/// has no room, and a read where eight are held: nothing is said of the uniform part then.
pub fn step_uniform(u: &mut UniformState, code: &Code, instr: Instr) -> Result<(), AllocError>
    requires room { HasRoom instr u.old.count }
    requires places { HasPlaces (length u.old.registers.items) instr }
    // The uniform part is left as the machine's definition of the instruction leaves it.
    ensures after { OnOk result (uniform_of u.new ≡ spec.on_uniform code.now instr (uniform_of u.old)) }
    ensures reserve { OnOk result (KeepsReserve u.old u.new) }
    // Memory is refused only to an item of output for which there is no room, or to a read where eight are held.
    ensures refused { OnErr result (IsShort instr u.old) }
{
    match instr {
        Instr::Mark { line } => begin_statement(u, line),
        Instr::Enter { .. } | Instr::Leave => {
            let _wrong = change_range(u, code, instr);
        }
        Instr::Ask {
            side: Side::Uniform,
            destination,
            entry,
            subscript,
            position,
        } => ask_uniform(u, code, destination, entry, subscript, position)?,
        Instr::Ask {
            side: Side::Private,
            destination,
            entry: _,
            subscript: _,
            position,
        } => ask_private(u, destination, position)?,
        Instr::Put { position, .. } => u.put = Some(moment_of(u, position)),
        Instr::Print { source } => print(u, source)?,
        _ => {
            let computed = computed_on(Side::Uniform, instr, &u.registers);
            put_result(u.registers.as_mut_slice(), computed);
        }
    }
    Ok(())
}
