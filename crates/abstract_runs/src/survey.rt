//! What stays the same through one run for all inputs.

ghost use Rattle.std.specs.Prelude.{◌≡◌, ◌≤◌, ◌<◌, true};
ghost use Rattle.pram_meaning.specs.Bounded.{counted};
ghost use Rattle.pram_meaning.specs.Store.{State};
ghost use Rattle.abstract_runs.specs.Following.{Follows};
ghost use Rattle.abstract_runs.specs.Leads.{Leads};
ghost use Rattle.abstract_runs.specs.Standing.{IsKnownAs};
ghost use Rattle.all_inputs.specs.Told.{IsKept};

use crate::standing::Standing;
use all_inputs::Told;
use pram_check::Program;
use std::alloc::Global;

/// What stays the same through one run for all inputs: the program, the most statements that a run may have, and the numbers to which what
/// is known of a loop grows.
#[derive(Clone, Copy)]
pub struct Survey<'a> {
    pub alloc: Global,
    pub program: &'a Program,
    pub bound: u32,
    pub marks: &'a [i64],
}

impl<'a> Survey<'a> {
    /// One statement more; `false` where no run goes on.
    pub fn begin(&self, known: &mut Standing, told: &mut Told) -> bool
        // Each run that goes on is known still, and those that would pass the bound are told.
        ensures leads { (m : State) → IsKnownAs known.old m → Leads (λ u n. (result ≡ true) × IsKnownAs known.new n × (n.team ≡ m.team))
            told.new (counted self.now.bound m) }
        // Where one may stand at the bound, that is told.
        ensures bound { self.now.bound ≤ known.old.most → told.new.may_go_on ≡ true }
        // Where runs go on, one statement more has run, and no more than the bound allows.
        ensures more { result ≡ true → (known.old.least < known.new.least) × (known.old.least < self.now.bound) }
        // The origins stay.
        ensures origins { known.new.origins.items ≡ known.old.origins.items }
        // What is known comes later than before.
        ensures follows { Follows known.old known.new }
        // Whatever was told is told still.
        ensures kept { IsKept told.old told.new }
    {
        let bound = self.bound;
        told.note_bound_if(bound <= known.most);
        if bound <= known.least {
            return false;
        }
        known.least += 1;
        if known.most < bound {
            known.most += 1;
        }
        true
    }
}
