//! The attempts of a set of processors.

ghost use Rattle.std.specs.Prelude.{◌≡◌, ℕ, List, [], IfOk, slice_get};
ghost use Rattle.pram_meaning.specs.Attempt.{attempt_step};
ghost use Rattle.pram_meaning.specs.Store.{State, member_of, seen_by};
ghost use Rattle.abstract_runs.specs.Covers.{Shows};
ghost use Rattle.pram_meaning.specs.Together.{part_of, parts};
ghost use Rattle.abstract_runs.specs.Finding.{AreKept};
ghost use Rattle.abstract_runs.specs.Rows.{AreActive, ArePartsBy, IsPartBy};
ghost use Rattle.abstract_runs.specs.Inner.{IsKnownAt, StandsOn};
ghost use Rattle.abstract_runs.specs.Standing.{IsKnownAs};

use crate::active::Active;
use crate::assigning::step_assignment;
use crate::findings::Findings;
use crate::outlook::Outlook;
use crate::row::Row;
use crate::standing::{Member, Standing};
use crate::survey::Survey;
use intervals::Interval;
use pram_check::{Expression, Program, StepTarget};
use std::alloc::AllocError;

// What is known of what a member sees.
pub(crate) fn outlook_by<'a>(
    program: &'a Program,
    known: &'a Standing,
    team: &'a [Member],
    no_locals: &'a Vec<Interval>,
    member: u32,
) -> Outlook<'a>
    requires { no_locals.now.items ≡ [] }
    ensures { (m : State) → IsKnownAs known.now m → IsKnownAt (slice_get team.now member) (member_of m.team member) →
        Shows result (seen_by program.now m member) }
{
    match team.get(member as usize) {
        Some(one) => Outlook {
            layout: program.layout(),
            uniforms: &known.uniforms,
            cells: &known.cells,
            index: one.index,
            locals: &one.locals,
        },
        None => Outlook {
            layout: program.layout(),
            uniforms: &known.uniforms,
            cells: &known.cells,
            index: 0,
            locals: no_locals,
        },
    }
}

impl<'a> Survey<'a> {
    // What is known of one processor's attempt.
    fn row_of(
        &self,
        known: &Standing,
        team: &Vec<Member>,
        active: Active,
        target: &StepTarget,
        e: &Expression,
        faults: &mut Findings,
    ) -> Result<Row, AllocError>
        ensures part { IfOk result (λ row. (m : State) → IsKnownAs known.now m →
            IsKnownAt (slice_get team.now.items active.member) (member_of m.team active.member) → IsPartBy faults.new row
            (part_of self.now.program.now m (λ s. attempt_step s target.now e.now) active.member)) }
        ensures member { IfOk result (λ row. row.member ≡ active.member) }
        ensures sure { IfOk result (λ row. row.is_sure ≡ active.is_sure) }
        ensures kept { AreKept faults.old faults.new }
    {
        let no_locals: Vec<Interval> = Vec::new(self.alloc);
        let seen = outlook_by(self.program, known, team, &no_locals, active.member);
        let mut trail = Vec::new(self.alloc);
        let effect = step_assignment(&seen, target, e, &mut trail, faults)?;
        Ok(Row {
            member: active.member,
            processor: seen.index,
            is_sure: active.is_sure,
            trail,
            effect,
        })
    }

    /// What is known of the attempts of all processors of a set, with the faults that they may have.
    pub fn rows_of(
        &self,
        known: &Standing,
        team: &Vec<Member>,
        active: &[Active],
        target: &StepTarget,
        e: &Expression,
        faults: &mut Findings,
    ) -> Result<Vec<Row>, AllocError>
        // For each set of members that may be active, the parts are of this kind.
        ensures parts { IfOk result (λ rows. (m : State) (vs : List ℕ) → StandsOn known.now team.now.items vs m → AreActive active.now vs →
            ArePartsBy faults.new rows.items (parts self.now.program.now m (λ s. attempt_step s target.now e.now) vs)) }
        // Each fault that might come before may come still.
        ensures kept { AreKept faults.old faults.new }
    {
        let mut rows = Vec::with_capacity(self.alloc, active.len())?;
        for k in 0..active.len() {
            let row = self.row_of(known, team, active[k], target, e, faults)?;
            rows.push(row)?;
        }
        Ok(rows)
    }
}
