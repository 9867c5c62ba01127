//! What is told of all runs together.

ghost use Rattle.std.specs.Prelude.{◌≡◌, [], Some, true, false, IfOk, OnOk};
ghost use Rattle.pram_values.specs.declared.kind.Kind.{Kind as AnyKind};
ghost use Rattle.all_inputs.specs.Faulting.{May};
ghost use Rattle.all_inputs.specs.Lines.{AreAscending, HaveFaults, reason_at};

use crate::faults::Faults;
use crate::line_faults::{LineFaults, note_at, place_of, reason_in};
use crate::reason::Reason;
use pram_values::Kind;
use std::alloc::{AllocError, Global};

/// What is told of all runs together: which lines may fault and how, in ascending order of lines, and whether a run may go on behind the
/// bound.
#[derive(Drop)]
pub struct Told {
    lines: Vec<LineFaults>,
    may_go_on: bool,
    pub ghost ascending: { AreAscending lines.items },
    pub ghost faulty: { HaveFaults lines.items },
}

impl Told {
    ghost use Rattle.all_inputs.specs.Overall.{single_fault};
    ghost use Rattle.all_inputs.specs.Told.{MayAt, IsKept};

    /// Nothing is told.
    pub fn nothing(alloc: Global) -> Told
        // No line may fault, and no run goes on.
        ensures { (result.lines.items ≡ []) × (result.may_go_on ≡ false) }
    {
        Told {
            lines: Vec::new(alloc),
            may_go_on: false,
        }
    }

    /// A fault of that kind alone is told, of a statement of that line, for that reason.
    pub fn one_fault(
        alloc: Global,
        line: u32,
        kind: Kind,
        reason: Reason,
    ) -> Result<Told, AllocError>
        // Of the lines this one alone has a fault, of this kind alone, ..
        ensures single { IfOk result (λ told. single_fault told.lines.items ≡ Some (line, kind)) }
        // .. which may come there, ..
        ensures may { IfOk result (MayAt kind line) }
        // .. for that reason, ..
        ensures reason { IfOk result (λ told. reason_at line kind told.lines.items ≡ Some reason) }
        // .. and no run goes on.
        ensures ends { IfOk result (λ told. told.may_go_on ≡ false) }
    {
        let mut lines = Vec::with_capacity(alloc, 1)?;
        lines.push(LineFaults {
            line,
            faults: Faults::only(kind, reason),
        })?;
        Ok(Told {
            lines,
            may_go_on: false,
        })
    }

    /// No fault is told, and that the run goes on behind the bound.
    pub fn going_on(alloc: Global) -> Told
        // No line may fault, and a run may go on.
        ensures { (result.lines.items ≡ []) × (result.may_go_on ≡ true) }
    {
        Told {
            lines: Vec::new(alloc),
            may_go_on: true,
        }
    }

    /// The lines that may fault, each once and with its faults, in ascending order.
    pub fn lines(&self) -> &[LineFaults]
        // They are all that are told.
        ensures { result.now ≡ self.now.lines.items }
    {
        self.lines.as_slice()
    }

    /// Why a fault of that kind may come at that line, where it may.
    pub fn reason(&self, line: u32, kind: Kind) -> Option<Reason>
        // It is the reason that is told of that line.
        ensures { result ≡ reason_at line kind self.now.lines.items }
    {
        reason_in(self.lines.as_slice(), line, kind)
    }

    /// Whether a run may go on behind the bound.
    pub fn may_go_on(&self) -> bool
        // It says so exactly where that is told.
        ensures { result ≡ self.now.may_go_on }
    {
        self.may_go_on
    }

    /// A run may go on behind the bound, if it may.
    pub fn note_bound_if(&mut self, may: bool)
        // Where it may, it is told.
        ensures noted { may ≡ true → self.new.may_go_on ≡ true }
        // Whatever was told is told still.
        ensures kept { IsKept self.old self.new }
    {
        if may {
            self.may_go_on = true;
        }
    }

    /// A statement of the line may have these faults.
    pub fn note(&mut self, line: u32, faults: Faults) -> Result<(), AllocError>
        // Each of them may come at that line.
        ensures noted { OnOk result ((kind : AnyKind) → May kind faults → MayAt kind line self.new) }
        // Whatever was told is told still.
        ensures kept { IsKept self.old self.new }
    {
        if !faults.has_any() {
            return Ok(());
        }
        let at = place_of(self.lines.as_slice(), line);
        note_at(&mut self.lines, at, LineFaults { line, faults })
    }
}
