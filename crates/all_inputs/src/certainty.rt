//! The fault that every run has.

ghost use Rattle.std.specs.Prelude.{◌≡◌, List, IfSome};
ghost use Rattle.write_rules.specs.Verdict.{Verdict};
ghost use Rattle.pram_model.specs.Layout.{SharedEntry};
ghost use Rattle.all_inputs.specs.Overall as spec;
ghost use Rattle.all_inputs.specs.Overall.{IsFaultAt, IsToldOf};

use crate::line_faults::LineFaults;
use crate::overall::Overall;
use pram_values::Kind;

// The one fault of the one line that has any.
fn single_fault(entries: &[LineFaults]) -> Option<(u32, Kind)>
    ensures { result ≡ spec.single_fault entries.now }
{
    let [entry] = entries else {
        return None;
    };
    let kind = entry.faults.only_kind()?;
    Some((entry.line, kind))
}

/// The line and the kind of the fault that every run has, where just one fault is told and nothing else.
pub fn only_fault(overall: &Overall) -> Option<(u32, Kind)>
    // Where there is one, each run that is told faults so.
    ensures certain { IfSome result (λ f. (layout : List SharedEntry) (verdict : Verdict) → IsToldOf layout overall.now verdict →
        IsFaultAt f.0 f.1 verdict) }
    // There is one exactly where one line has one kind of fault, no run may go on and none ends.
    ensures just { result ≡ spec.only_fault overall.now }
{
    if overall.told.may_go_on() || overall.end.is_some() {
        return None;
    }
    single_fault(overall.told.lines())
}
