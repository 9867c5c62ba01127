//! The verifier: one pass over the code, with the states that were given to places so far.

ghost use Rattle.std.specs.Prelude.{◌≡◌, ◌+◌, ◌<◌, length, IfSome, IsNone, IfOk, IfErr, None, replicate};
ghost use Rattle.bsp_verify.specs.FirstFault.{IsFirstFault, IsRefusal};
ghost use Rattle.bsp_verify.specs.Table.{IsTable};
ghost use Rattle.bsp_verify.specs.WellFormed.{IsWellFormed};

use crate::fault::{Reason, VerifyFault};
use crate::judge::{first_reason, state_after};
use crate::state::State;
use crate::table::pass_on;
use crate::verified::Verified;
use std::alloc::{AllocError, Global};
use superstep_instructions::Code;

/// Judges one instruction, and gives its successors their state.
fn judge(code: &Code, table: &mut [Option<State>], at: u32) -> Option<Reason>
    requires place { at < length code.now.instructions }
    requires kept { IsTable code.now at table.old }
    ensures none { IsNone result → IsTable code.now (at + 1) table.new }
    ensures some { IfSome result (λ why. IsFirstFault code.now at why) }
{
    let Some(state) = table[at as usize] else {
        return Some(Reason::State);
    };
    let instr = code.instructions()[at as usize];
    match first_reason(code, at, instr, state) {
        Some(reason) => Some(reason),
        None => {
            if pass_on(table, instr, at, state_after(instr, state)) {
                None
            } else {
                Some(Reason::State)
            }
        }
    }
}

/// A table in which no place has a state.
fn no_states(alloc: Global, length: usize) -> Result<Vec<Option<State>>, AllocError>
    ensures { IfOk result (λ table. table.items ≡ replicate length None) }
{
    vec![in alloc; None; length]
}

/// The number of instructions.
fn count(code: &Code) -> u32
    ensures { result ≡ length code.now.instructions }
{
    code.instructions().len() as u32
}

/// Why the code is refused, if it is.
fn first_fault(alloc: Global, code: &Code) -> Option<VerifyFault>
    ensures none { IsNone result → IsWellFormed code.now }
    ensures some { IfSome result (λ fault. IsRefusal code.now fault) }
{
    let count = count(code);
    if count == 0 {
        return Some(VerifyFault::NotVerified {
            at: 0,
            reason: Reason::End,
        });
    }
    let Ok(mut table) = no_states(alloc, count as usize) else {
        return Some(VerifyFault::OutOfMemory);
    };
    table[0] = Some(State::opening());
    for at in 0..count {
        if let Some(reason) = judge(code, &mut table, at) {
            return Some(VerifyFault::NotVerified { at, reason });
        }
    }
    None
}

/// The code as verified, exactly where it is well formed: its places can be given states, such
/// that every instruction is met. Otherwise the first instruction that can't be met together with
/// those before it, and the first reason against it (E14); or `OutOfMemory`, where memory was
/// refused (E16). A fault gives the code back.
///
/// It takes one pass over the code, and a few bytes for each place.
pub fn verify(alloc: Global, code: Code) -> Result<Verified, (VerifyFault, Code)>
    // The verified code is the code that was given.
    ensures kept { IfOk result (λ verified. verified ≡ code) }
    // Code that is accepted is well formed: its places can be given states such that every instruction is met.
    ensures accepted { IfOk result (λ verified. IsWellFormed code) }
    // A refusal gives the code back.
    ensures given_back { IfErr result (λ e. e.1 ≡ code) }
    // A refusal tells the least instruction that can't be met together with those before it, and the first reason
    // against it; refused memory says nothing of the code.
    ensures refused { IfErr result (λ e. IsRefusal code e.0) }
{
    match first_fault(alloc, &code) {
        None => Ok(Verified { code }),
        Some(fault) => Err((fault, code)),
    }
}
