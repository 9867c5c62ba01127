//! A pardo.

ghost use Rattle.std.specs.Prelude.{◌≡◌, ◌-◌, ◌+ℤ◌, pos, FitsSigned, ◌⊎◌, true, IfOk, IfErr, IfSome, IsSomeAnd, OnOk};
ghost use Rattle.std.specs.Int.{w64};
ghost use Rattle.pram_meaning.specs.Attempt.{attempt_range};
ghost use Rattle.pram_meaning.specs.Bounded as spec;
ghost use Rattle.pram_meaning.specs.Bounded.{evaluated};
ghost use Rattle.pram_meaning.specs.Store.{State, seen};
ghost use Rattle.abstract_runs.specs.Following.{Follows};
ghost use Rattle.all_inputs.specs.declared.undecided.Undecided.TheVariants.{OpenBounds};
ghost use Rattle.abstract_runs.specs.Halting.{AreOpen, Halts, HaveStep, IsOpenOn};
ghost use Rattle.abstract_runs.specs.Leads.{Leads};
ghost use Rattle.abstract_runs.specs.Standing.{StandsFor};
ghost use Rattle.all_inputs.specs.Told.{IsKept};

use crate::alone::outlook_of;
use crate::findings::Findings;
use crate::gathering::{all_active, gather};
use crate::halt::Halt;
use crate::ranging::range;
use crate::standing::Standing;
use crate::survey::Survey;
use all_inputs::Told;
use intervals::Interval;
use pram_check::{Expression, Step};

impl<'a> Survey<'a> {
    // The first index of a pardo and how many there are, where runs go on: it counts, and it may fault.
    fn try_range(
        &self,
        known: &mut Standing,
        told: &mut Told,
        line: u32,
        low: &Expression,
        high: &Expression,
    ) -> Result<Option<(i64, u32)>, Halt>
        ensures leads { IfOk result (λ found. (m : State) → StandsFor known.old m →
            Leads (λ r n. IsSomeAnd found (λ q. r ≡ (q.0, q.1)) × StandsFor known.new n) told.new
            (evaluated self.now.bound line (λ m. attempt_range self.now.program.now.procs (seen self.now.program.now m) low.now high.now) m)) }
        ensures fits { IfOk result (λ found. IfSome found (λ q. FitsSigned w64 (q.0 +ℤ pos (q.1 - 1)))) }
        ensures halts { IfErr result (Halts (λ u. (u ≡ OpenBounds line) × AreOpen low.now high.now)) }
        ensures follows { Follows known.old known.new }
        ensures kept { IsKept told.old told.new }
    {
        if !self.begin(known, told) {
            return Ok(None);
        }
        let no_locals: Vec<Interval> = Vec::new(self.alloc);
        let mut trail = Vec::new(self.alloc);
        let mut faults = Findings::none();
        let seen = outlook_of(self.program, known, &no_locals);
        let procs = self.program.procs();
        let found = range(&seen, line, procs, low, high, &mut trail, &mut faults)?;
        told.note(line, faults.within(None))?;
        Ok(found)
    }

    /// A pardo, with its statements; `false` where no run goes on.
    pub fn run_pardo(
        &self,
        known: &mut Standing,
        told: &mut Told,
        body: &Vec<Step>,
        line: u32,
        low: &Expression,
        high: &Expression,
        locals: usize,
    ) -> Result<bool, Halt>
        // Each run goes on as is known, or comes to what is told.
        ensures leads { IfOk result (λ on. (m : State) → StandsFor known.old m → Leads (λ u n. (on ≡ true) × StandsFor known.new n) told.new
            (spec.pardo self.now.program.now self.now.bound line low.now high.now locals body.now.items m)) }
        // It halts for want of memory, since one of the bounds isn't written as a number, or at a loop.
        ensures halts { IfErr result (Halts (λ u. ((u ≡ OpenBounds line) × AreOpen low.now high.now) ⊎ HaveStep (IsOpenOn u) body.now.items)) }
        ensures follows { OnOk result (Follows known.old known.new) }
        ensures kept { IsKept told.old told.new }
    {
        let Some((first, count)) = self.try_range(known, told, line, low, high)? else {
            return Ok(false);
        };
        let mut team = gather(self.alloc, first, count, locals)?;
        let all = all_active(self.alloc, count)?;
        let on = self.run_block_on(known, told, &mut team, None, &all, body)?;
        Ok(on)
    }
}
