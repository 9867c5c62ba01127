//! The faults of a line, among those of others.

ghost use Rattle.std.specs.Prelude.{◌≡◌, true, false, OnOk};
ghost use Rattle.std.specs.List.{All};
ghost use Rattle.all_inputs.specs.Faulting.{has_fault};
ghost use Rattle.all_inputs.specs.Lines.{AreAscending, HasLineAt, HaveFaults, IsGapFor, IsHeld, IsPlaceOf, reason_at};

use crate::faults::Faults;
use crate::reason::Reason;
use pram_values::Kind;
use std::alloc::AllocError;

/// The faults that the statements of a line may have.
#[derive(Clone, Copy, Debug, PartialEq, Eq)]
pub struct LineFaults {
    pub line: u32,
    pub faults: Faults,
}

/// The place of a line among lines in ascending order.
pub(crate) fn place_of(entries: &[LineFaults], line: u32) -> usize
    // Lesser lines stand before that place, and none at it.
    ensures { IsPlaceOf entries.now line result }
{
    for at in 0..entries.len() {
        if line <= entries[at].line {
            return at;
        }
    }
    entries.len()
}

/// Why a fault of that kind may come at that line, where it may.
pub(crate) fn reason_in(entries: &[LineFaults], line: u32, kind: Kind) -> Option<Reason>
    // It is the reason of the first of them that has the line.
    ensures { result ≡ reason_at line kind entries.now }
{
    for entry in entries {
        if entry.line == line {
            return entry.faults.reason(kind);
        }
    }
    None
}

// Whether the line stands at its place.
fn stands_at(entries: &[LineFaults], line: u32, at: usize) -> bool
    requires { IsPlaceOf entries.now line at }
    ensures found { result ≡ true → HasLineAt entries.now line at }
    ensures absent { result ≡ false → IsGapFor entries.now line at }
{
    at < entries.len() && entries[at].line == line
}

/// Takes the faults of a line in at its place: they go to those of the line where it has some.
pub(crate) fn note_at(
    entries: &mut Vec<LineFaults>,
    at: usize,
    entry: LineFaults,
) -> Result<(), AllocError>
    requires ascending { AreAscending entries.old.items }
    requires faulty { HaveFaults entries.old.items }
    requires place { IsPlaceOf entries.old.items entry.line at }
    requires fault { has_fault entry.faults ≡ true }
    // Lines ascend still.
    ensures ascending { AreAscending entries.new.items }
    // Each still has a fault.
    ensures faulty { HaveFaults entries.new.items }
    // The faults are among those of the line.
    ensures noted { OnOk result (IsHeld entries.new.items entry) }
    // And so are those of each line before.
    ensures kept { All (IsHeld entries.new.items) entries.old.items }
{
    if stands_at(entries.as_slice(), entry.line, at) {
        let faults = entries[at].faults.with(&entry.faults);
        entries[at] = LineFaults {
            line: entry.line,
            faults,
        };
        return Ok(());
    }
    entries.insert(at, entry)?;
    Ok(())
}
