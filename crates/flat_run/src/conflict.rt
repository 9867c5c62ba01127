//! The conflicts that are noted in a send.

ghost use Rattle.std.specs.Prelude.{◌≡◌, ◌<◌, ◌&&◌, None, Some, if◌then◌else◌, length, map, pos};
ghost use Rattle.std.specs.List.{range_with_len};
ghost use Rattle.pram_values.specs.Total.{total};
ghost use Rattle.pram_values.specs.declared.kind.Kind.TheVariants as kind_is;
ghost use Rattle.write_rules.specs.Rule.{shares_reads as spec_shares_reads};
ghost use Rattle.superstep_machine.specs.Sending as spec;
ghost use Rattle.flat_machine.specs.Flat as flat;
ghost use Rattle.instruction_steps.specs.Views.{moment_is, put_is, read_is};
ghost use Rattle.flat_run.specs.Views.{part_of, own_of, held_of, flat_of, IsSized};

use crate::machine::Machine;
use crate::processor::ProcessorState;
use instruction_steps::{Moment, Read, verdict_on};
use pram_model::Rule;
use pram_values::{Kind, Place};
use superstep_instructions::{Code, Side};
use superstep_machine::{Key, least};

// A fault of several processors at a cell.
fn conflict_at(at: Moment, cell: u32, kind: Kind) -> Key
    ensures { result ≡ spec.conflict_at (moment_is at) cell kind }
{
    Key {
        count: at.count,
        position: at.position,
        conflict: true,
        place: Place::Cell(cell),
        kind,
        line: at.line,
    }
}

// The conflict of a put at a cell, at the put's moment.
fn put_conflict(put: Option<Moment>, cell: u32, verdict: Option<Result<i64, Kind>>) -> Option<Key>
    ensures { result ≡ spec.put_conflict (put_is put) cell verdict }
{
    match (put, verdict) {
        (Some(at), Some(Err(kind))) => Some(conflict_at(at, cell, kind)),
        _ => None,
    }
}

// The conflict of the held writes to a cell.
#[tactic(auto, using(crate::proofs::PartLemmas::held_is))]
fn owed_at(code: &Code, machine: &Machine, c: u32) -> Option<Key>
    requires { c < length machine.now.held.items }
    ensures { result ≡ spec.put_conflict (put_is machine.now.uniform.put) c
        (spec.verdict_on code.now.rule (held_of machine.now.held.items c)) }
{
    let verdict = verdict_on(code.rule(), machine.held[c as usize]);
    put_conflict(machine.uniform.put, c, verdict)
}

// The least conflict of the held writes.
fn owed(code: &Code, machine: &Machine) -> Option<Key>
    requires { IsSized code.now machine.now }
    ensures { result ≡ flat.owed code.now (flat_of machine.now) }
{
    let mut noted = None;
    let mut c = code.layout().cells();
    'cells: while c > 0 {
        c -= 1;
        noted = least(owed_at(code, machine, c), noted);
    }
    noted
}

// The cell that a processor asks for by read k.
fn cell_at(k: usize, asks: &[Option<u32>]) -> Option<u32>
    ensures { result ≡ spec.cell_at k asks.now }
{
    match asks.get(k) {
        Some(cell) => *cell,
        None => None,
    }
}

fn asks_for(cell: u32, asked: Option<u32>) -> Option<bool>
    ensures { result ≡ spec.asks_for cell asked }
{
    match asked {
        None => None,
        Some(other) => { if other == cell { Some(false) } else { None } }
    }
}

// One, or two and more: `Some(true)` is the latter.
fn several(a: Option<bool>, b: Option<bool>) -> Option<bool>
    ensures { result ≡ spec.several a b }
{
    match (a, b) {
        (None, _) => b,
        (_, None) => a,
        (Some(_), Some(_)) => Some(true),
    }
}

// Whether a processor asks for a cell by read k.
fn asks(x: &ProcessorState, k: usize, cell: u32) -> Option<bool>
    ensures { result ≡ spec.asks_for cell (spec.cell_at k (part_of x.now).asks) }
{
    asks_for(cell, cell_at(k, &x.asks))
}

// How many processors ask for a cell by read k: none, one, or two and more.
fn askers(processors: &[ProcessorState], k: usize, cell: u32) -> Option<bool>
    ensures { result ≡ total None spec.several (λ v. spec.asks_for cell (spec.cell_at k (own_of processors.now v).asks))
        (range_with_len 0 (length processors.now)) }
{
    let mut came = None;
    let mut v = processors.len();
    'processors: while v > 0 {
        v -= 1;
        came = several(asks(&processors[v], k, cell), came);
    }
    came
}

// The conflict of one private read at a cell.
fn conflict_of(read: Read, cell: u32, came: Option<bool>) -> Option<Key>
    ensures { result ≡ (if spec.is_private (read_is read).side
        && spec.is_several came then Some (spec.conflict_at (read_is read).moment cell kind_is.ReadConflict) else None) }
{
    match (read.side, came) {
        (Side::Private, Some(true)) => { Some(conflict_at(read.moment, cell, Kind::ReadConflict)) }
        _ => None,
    }
}

// The conflicts of one private read.
fn read_conflict(code: &Code, machine: &Machine, k: usize, read: Read) -> Option<Key>
    requires { IsSized code.now machine.now }
    ensures { result ≡ flat.read_conflict code.now (flat_of machine.now) k (read_is read) }
{
    let mut noted = None;
    let mut c = code.layout().cells();
    'cells: while c > 0 {
        c -= 1;
        let came = askers(&machine.processors, k, c);
        noted = least(conflict_of(read, c, came), noted);
    }
    noted
}

// Read by read.
fn read_conflicts(code: &Code, machine: &Machine) -> Option<Key>
    requires { IsSized code.now machine.now }
    ensures { result ≡ flat.read_conflicts code.now (flat_of machine.now) 0 (map read_is machine.now.uniform.asks.items) }
{
    let reads = machine.uniform.asks.as_slice();
    let mut noted = None;
    let mut k = reads.len();
    'reads: while k > 0 {
        k -= 1;
        let read = reads[k];
        noted = least(read_conflict(code, machine, k, read), noted);
    }
    noted
}

fn shares_reads(rule: Rule) -> bool
    ensures { result ≡ spec_shares_reads rule }
{
    rule != Rule::Erew
}

/// The least key that is noted in a send.
pub fn conflicts(code: &Code, machine: &Machine) -> Option<Key>
    requires { IsSized code.now machine.now }
    ensures { result ≡ flat.conflicts code.now (flat_of machine.now) }
{
    let owed = owed(code, machine);
    if shares_reads(code.rule()) {
        least(owed, None)
    } else {
        least(owed, read_conflicts(code, machine))
    }
}
