//! One instruction against the code and the state of its place.

ghost use Rattle.std.specs.Prelude.{◌≡◌, ◌&&◌, true};
ghost use Rattle.bsp_verify.specs.Judging as spec;
ghost use Rattle.bsp_verify.specs.States.{after};

use crate::fault::Reason;
use crate::state::State;
use superstep_instructions::{Code, Instr, Side};

/// Whether there is that register.
fn is_register(code: &Code, side: Side, register: u16) -> bool
    ensures { result ≡ spec.is_register code.now side register }
{
    let count = match side {
        Side::Uniform => code.uniform_registers(),
        Side::Private => code.private_registers(),
    };
    (register as u32) < count
}

/// Whether all registers that it names are there.
fn has_registers(code: &Code, instr: Instr) -> bool
    ensures { result ≡ spec.has_registers code.now instr }
{
    match instr {
        Instr::Set {
            side,
            destination,
            ..
        } => is_register(code, side, destination),
        Instr::Copy {
            side,
            destination,
            source,
        }
        | Instr::Negate {
            side,
            destination,
            source,
            ..
        }
        | Instr::Not {
            side,
            destination,
            source,
        } => { is_register(code, side, destination) && is_register(code, side, source) }
        Instr::Calculate {
            side,
            destination,
            left,
            right,
            ..
        }
        | Instr::Decide {
            side,
            destination,
            left,
            right,
            ..
        } => {
            is_register(code, side, destination)
                && is_register(code, side, left)
                && is_register(code, side, right)
        }
        Instr::CopyUniform {
            destination,
            source,
        } => {
            is_register(code, Side::Private, destination)
                && is_register(code, Side::Uniform, source)
        }
        Instr::Index { destination } => is_register(code, Side::Private, destination),
        Instr::Mask { source } => is_register(code, Side::Private, source),
        Instr::Ask {
            side,
            destination,
            subscript,
            ..
        } => { is_register(code, side, destination) && is_register(code, side, subscript) }
        Instr::Put {
            side,
            subscript,
            value,
            ..
        } => { is_register(code, side, subscript) && is_register(code, side, value) }
        Instr::Enter { low, high, .. } => {
            is_register(code, Side::Uniform, low) && is_register(code, Side::Uniform, high)
        }
        Instr::Vote { destination } => is_register(code, Side::Uniform, destination),
        Instr::Print { source } | Instr::JumpIfZero { source, .. } => {
            is_register(code, Side::Uniform, source)
        }
        Instr::Mark { .. }
        | Instr::Leave
        | Instr::Flip
        | Instr::Unmask
        | Instr::Send
        | Instr::Reply
        | Instr::Jump { .. }
        | Instr::Halt => true,
    }
}

/// Whether the declaration that it names is there.
fn has_entry(code: &Code, instr: Instr) -> bool
    ensures { result ≡ spec.has_entry code.now instr }
{
    match instr {
        Instr::Ask { entry, .. } | Instr::Put { entry, .. } => {
            (entry as usize) < code.layout().len()
        }
        _ => true,
    }
}

/// Whether a jump may go there: to an instruction that is above it or a mark.
fn is_target(code: &Code, at: u32, target: u16) -> bool
    ensures { result ≡ spec.is_target code.now at target }
{
    match code.instructions().get(target as usize) {
        None => false,
        Some(instr) => at < (target as u32) || matches!(*instr, Instr::Mark { .. }),
    }
}

/// Whether it may go to its target.
fn has_target(code: &Code, at: u32, instr: Instr) -> bool
    ensures { result ≡ spec.has_target code.now at instr }
{
    match instr {
        Instr::Jump { target } | Instr::JumpIfZero { target, .. } => is_target(code, at, target),
        _ => true,
    }
}

/// Whether registers of that side are there.
fn has_side(side: Side, state: State) -> bool
    ensures { result ≡ spec.has_side side state }
{
    match side {
        Side::Uniform => true,
        Side::Private => state.entered,
    }
}

/// Whether that side uses the shared memory.
fn is_acting(side: Side, state: State) -> bool
    ensures { result ≡ spec.is_acting side state }
{
    match side {
        Side::Uniform => !state.entered,
        Side::Private => state.entered,
    }
}

/// Whether it stands rightly within a range or outside of one.
fn fits_mode(instr: Instr, state: State) -> bool
    ensures { result ≡ spec.fits_mode instr state }
{
    match instr {
        Instr::Set { side, .. }
        | Instr::Copy { side, .. }
        | Instr::Negate { side, .. }
        | Instr::Calculate { side, .. }
        | Instr::Decide { side, .. }
        | Instr::Not { side, .. } => has_side(side, state),
        Instr::Ask { side, .. } | Instr::Put { side, .. } => is_acting(side, state),
        Instr::Enter { .. } => !state.entered,
        Instr::CopyUniform { .. }
        | Instr::Index { .. }
        | Instr::Leave
        | Instr::Mask { .. }
        | Instr::Flip
        | Instr::Unmask
        | Instr::Vote { .. } => state.entered,
        _ => true,
    }
}

/// Whether it can do with the masks that are on.
fn fits_masks(instr: Instr, state: State) -> bool
    ensures { result ≡ spec.fits_masks instr state }
{
    match instr {
        Instr::Mask { .. } => state.masks < 64,
        Instr::Flip | Instr::Unmask => state.masks > 0,
        Instr::Leave => state.masks == 0,
        _ => true,
    }
}

/// Whether it works on registers alone.
fn is_on_registers(instr: Instr) -> bool
    ensures { result ≡ spec.is_on_registers instr }
{
    matches!(
        instr,
        Instr::Set { .. }
            | Instr::Copy { .. }
            | Instr::Negate { .. }
            | Instr::Calculate { .. }
            | Instr::Decide { .. }
            | Instr::Not { .. }
            | Instr::CopyUniform { .. }
            | Instr::Index { .. }
    )
}

/// Whether it goes with what is held and awaited.
fn fits_exchange(instr: Instr, state: State) -> bool
    ensures { result ≡ spec.fits_exchange instr state }
{
    match instr {
        Instr::Reply => state.awaits,
        Instr::Send => !state.awaits,
        Instr::Ask { .. } => !state.awaits && state.asks < 8,
        Instr::Put { .. } | Instr::Vote { .. } => {
            !state.awaits && (state.asks == 0 && !state.put)
        }
        other => !state.awaits && (is_on_registers(other) || state.asks == 0),
    }
}

/// Whether it doesn't go on from the last place.
fn stays_within(code: &Code, at: u32, instr: Instr) -> bool
    ensures { result ≡ spec.stays_within code.now at instr }
{
    match instr {
        Instr::Halt | Instr::Jump { .. } => true,
        _ => (at as usize) + 1 < code.instructions().len(),
    }
}

/// The first reason against an instruction at a place with that state.
pub(crate) fn first_reason(code: &Code, at: u32, instr: Instr, state: State) -> Option<Reason>
    ensures { result ≡ spec.first_reason code.now at instr state }
{
    if !has_registers(code, instr) {
        Some(Reason::Register)
    } else if !has_entry(code, instr) {
        Some(Reason::Entry)
    } else if !has_target(code, at, instr) {
        Some(Reason::Target)
    } else if !fits_mode(instr, state) {
        Some(Reason::Mode)
    } else if !fits_masks(instr, state) {
        Some(Reason::Mask)
    } else if !fits_exchange(instr, state) {
        Some(Reason::Exchange)
    } else if !stays_within(code, at, instr) {
        Some(Reason::End)
    } else {
        None
    }
}

/// The state that an instruction leaves.
pub(crate) fn state_after(instr: Instr, state: State) -> State
    requires masks { spec.fits_masks instr state ≡ true }
    requires exchange { spec.fits_exchange instr state ≡ true }
    ensures { result ≡ after instr state }
{
    match instr {
        Instr::Enter { .. } => State {
            entered: true,
            ..state
        },
        Instr::Leave => State {
            entered: false,
            ..state
        },
        Instr::Mask { .. } => State {
            masks: state.masks + 1,
            ..state
        },
        Instr::Unmask => State {
            masks: state.masks - 1,
            ..state
        },
        Instr::Ask { .. } => State {
            asks: state.asks + 1,
            ..state
        },
        Instr::Put { .. } => State { put: true, ..state },
        Instr::Send => State {
            asks: 0,
            put: false,
            awaits: state.asks > 0,
            ..state
        },
        Instr::Reply => State {
            awaits: false,
            ..state
        },
        _ => state,
    }
}
