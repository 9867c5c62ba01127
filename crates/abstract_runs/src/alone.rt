//! What the one processor outside pardo evaluates.

ghost use Rattle.std.specs.Prelude.{◌≡◌, ◌≤◌, ◌<◌, [], ℤ, true, IfOk, IfErr, IfSome, IsSomeAnd, OnOk};
ghost use Rattle.pram_meaning.specs.Attempt.{attempt, attempt_assign, attempt_bounds};
ghost use Rattle.pram_meaning.specs.Bounded.{evaluated, found};
ghost use Rattle.pram_meaning.specs.Store.{State, seen};
ghost use Rattle.abstract_runs.specs.Covers.{IsAmong, Shows};
ghost use Rattle.abstract_runs.specs.Effects.{IsGivenBy};
ghost use Rattle.abstract_runs.specs.Following.{Follows};
ghost use Rattle.all_inputs.specs.declared.undecided.Undecided.TheVariants.{OpenBounds};
ghost use Rattle.abstract_runs.specs.Halting.{AreOpen, Halts};
ghost use Rattle.abstract_runs.specs.Leads.{Leads};
ghost use Rattle.abstract_runs.specs.Standing.{IsKnownAs, StandsFor};
ghost use Rattle.abstract_runs.specs.Tests.{IsValueOf};
ghost use Rattle.all_inputs.specs.Told.{IsKept};

use crate::assigning::assignment;
use crate::attempt::value_of;
use crate::bounds::bounds;
use crate::effect::Effect;
use crate::findings::Findings;
use crate::halt::Halt;
use crate::outlook::Outlook;
use crate::standing::Standing;
use crate::survey::Survey;
use all_inputs::Told;
use intervals::Interval;
use pram_check::{Expression, Program, Target};
use std::alloc::AllocError;

/// What is known of what the one processor sees.
pub(crate) fn outlook_of<'a>(
    program: &'a Program,
    known: &'a Standing,
    no_locals: &'a Vec<Interval>,
) -> Outlook<'a>
    requires { no_locals.now.items ≡ [] }
    ensures { (m : State) → IsKnownAs known.now m → Shows result (seen program.now m) }
{
    Outlook {
        layout: program.layout(),
        uniforms: &known.uniforms,
        cells: &known.cells,
        index: 0,
        locals: no_locals,
    }
}

impl<'a> Survey<'a> {
    /// A statement's value, where it has one: it counts, and it may fault.
    pub fn evaluate(
        &self,
        known: &mut Standing,
        told: &mut Told,
        line: u32,
        e: &Expression,
    ) -> Result<Option<Interval>, AllocError>
        // Each run goes on with a value of the interval, which the expression gives there, or comes to what is told.
        ensures leads { IfOk result (λ value. (m : State) → StandsFor known.old m →
            Leads (λ v n. (IsAmong value v × IsValueOf (seen self.now.program.now n) e.now v) × StandsFor known.new n) told.new
            (found self.now.program.now self.now.bound line e.now m)) }
        // Where a run may stand at the bound, that is told.
        ensures bound { OnOk result (self.now.bound ≤ known.old.most → told.new.may_go_on ≡ true) }
        // Where it has one, one statement more has run, and no more than the bound allows.
        ensures more { IfOk result (λ value. IfSome value (λ v. (known.old.least < known.new.least) × (known.old.least < self.now.bound))) }
        ensures follows { Follows known.old known.new }
        ensures kept { IsKept told.old told.new }
    {
        if !self.begin(known, told) {
            return Ok(None);
        }
        let no_locals: Vec<Interval> = Vec::new(self.alloc);
        let mut trail = Vec::new(self.alloc);
        let mut faults = Findings::none();
        let seen = outlook_of(self.program, known, &no_locals);
        let value = value_of(&seen, e, &mut trail, &mut faults)?;
        told.note(line, faults.within(None))?;
        Ok(value)
    }

    /// What an assignment gives, where it gives something: it counts, and it may fault.
    pub fn try_assign(
        &self,
        known: &mut Standing,
        told: &mut Told,
        line: u32,
        target: &Target,
        e: &Expression,
    ) -> Result<Option<Effect>, AllocError>
        // Each run goes on with such a value for such a cell, or comes to what is told.
        ensures leads { IfOk result (λ effect. (m : State) → StandsFor known.old m → Leads (λ g n. IsGivenBy effect g × StandsFor known.new n)
            told.new (evaluated self.now.bound line (λ m. attempt_assign (seen self.now.program.now m) target.now e.now) m)) }
        // The origins stay.
        ensures origins { known.new.origins.items ≡ known.old.origins.items }
        // Where a run may stand at the bound, that is told.
        ensures bound { OnOk result (self.now.bound ≤ known.old.most → told.new.may_go_on ≡ true) }
        ensures follows { Follows known.old known.new }
        ensures kept { IsKept told.old told.new }
    {
        if !self.begin(known, told) {
            return Ok(None);
        }
        let no_locals: Vec<Interval> = Vec::new(self.alloc);
        let mut trail = Vec::new(self.alloc);
        let mut faults = Findings::none();
        let seen = outlook_of(self.program, known, &no_locals);
        let effect = assignment(&seen, target, e, &mut trail, &mut faults)?;
        told.note(line, faults.within(None))?;
        Ok(effect)
    }

    /// The bounds of a `for`, where runs go on: it counts, and it may fault.
    pub fn try_bounds(
        &self,
        known: &mut Standing,
        told: &mut Told,
        line: u32,
        low: &Expression,
        high: &Expression,
    ) -> Result<Option<(i64, i64)>, Halt>
        // Each run goes on with these bounds, or comes to what is told.
        ensures leads { IfOk result (λ found. (m : State) → StandsFor known.old m →
            Leads (λ r n. IsSomeAnd found (λ q. r ≡ (q.0, q.1)) × StandsFor known.new n) told.new
            (evaluated self.now.bound line (λ m. attempt_bounds (seen self.now.program.now m) low.now high.now) m)) }
        // It halts for want of memory, or since one of the bounds isn't written as a number.
        ensures halts { IfErr result (Halts (λ u. (u ≡ OpenBounds line) × AreOpen low.now high.now)) }
        ensures follows { Follows known.old known.new }
        ensures kept { IsKept told.old told.new }
    {
        if !self.begin(known, told) {
            return Ok(None);
        }
        let no_locals: Vec<Interval> = Vec::new(self.alloc);
        let mut trail = Vec::new(self.alloc);
        let mut faults = Findings::none();
        let seen = outlook_of(self.program, known, &no_locals);
        let found = bounds(&seen, line, low, high, &mut trail, &mut faults)?;
        told.note(line, faults.within(None))?;
        Ok(found)
    }
}
