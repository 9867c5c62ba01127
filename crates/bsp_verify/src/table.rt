//! The states that were given to places so far.

ghost use Rattle.std.specs.Prelude.{◌≡◌, ℕ, ◌<◌, true, false, length};
ghost use Rattle.bsp_verify.specs.Control.{Leads};
ghost use Rattle.bsp_verify.specs.Table.{Adds, Clashes};

use crate::state::State;
use superstep_instructions::Instr;

/// Gives a place a state: false where it has another.
fn give(table: &mut [Option<State>], to: usize, state: State) -> bool
    requires { to < length table.old }
    ensures given { result ≡ true → Adds table.old table.new (λ t. t ≡ to) state }
    ensures clash { result ≡ false → Clashes table.old (λ t. t ≡ to) state }
{
    match table[to] {
        None => {
            table[to] = Some(state);
            true
        }
        Some(other) => other == state,
    }
}

/// Gives a state to all successors of an instruction: false where one of them has another.
pub(crate) fn pass_on(table: &mut [Option<State>], instr: Instr, at: u32, state: State) -> bool
    requires place { at < length table.old }
    requires next { (t : ℕ) → Leads instr at t → t < length table.old }
    ensures given { result ≡ true → Adds table.old table.new (λ t. Leads instr at t) state }
    ensures clash { result ≡ false → Clashes table.old (λ t. Leads instr at t) state }
{
    let next = (at as usize) + 1;
    match instr {
        Instr::Halt => true,
        Instr::Jump { target } => give(table, target as usize, state),
        Instr::JumpIfZero { target, .. } => {
            give(table, target as usize, state) && give(table, next, state)
        }
        _ => give(table, next, state),
    }
}
