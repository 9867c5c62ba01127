//! The events of a statement that begins.

ghost use Rattle.std.specs.Prelude.{◌≡◌, [], ◌∷◌, None, OnOk, false};
ghost use Rattle.exchange_bound.specs.Events.{Cut, Runs};
ghost use Rattle.pram_meaning.specs.Listening.{action_is, step_action_is};
ghost use Rattle.costs.specs.Ledgers.{spending_is};
ghost use Rattle.costs.specs.MomentEvents.{alone_events, set_events};
ghost use Rattle.costs.specs.Spending.{spend_all};

use crate::exchanges::Exchanges;
use crate::levels::{
    assignment_levels, is_shared, is_step_shared, levels, levels_of_both, step_levels,
};
use crate::too_many::TooMany;
use pram_meaning::action::{Action, StepAction};

impl Exchanges {
    // A statement behind which what was written is sent.
    fn run_and_cut(&mut self, levels: u64) -> Result<(), TooMany>
        ensures { OnOk result (spending_is self.new ≡ spend_all (Runs levels false None 0 ∷ Cut ∷ []) (spending_is self.old)) }
    {
        self.run(levels, false)?;
        self.cut()
    }

    // The test of a loop, before which it is sent too.
    fn turn(&mut self, levels: u64) -> Result<(), TooMany>
        ensures { OnOk result (spending_is self.new ≡ spend_all (Cut ∷ Runs levels false None 0 ∷ Cut ∷ []) (spending_is self.old)) }
    {
        self.cut()?;
        self.run_and_cut(levels)
    }

    /// A statement outside pardo.
    pub fn begin(&mut self, action: &Action) -> Result<(), TooMany>
        ensures { OnOk result (spending_is self.new ≡ spend_all (alone_events (action_is action.now)) (spending_is self.old)) }
    {
        match *action {
            Action::Assigns { target, value } => {
                let levels = assignment_levels(target, value)?;
                self.run(levels, is_shared(target))
            }
            Action::Prints { value } => {
                let levels = levels(value)?;
                self.run(levels, false)
            }
            Action::Turns { test } => {
                let levels = levels(test)?;
                self.turn(levels)
            }
            Action::Chooses { test } => {
                let levels = levels(test)?;
                self.run_and_cut(levels)
            }
            Action::Bounds { low, high } => {
                let levels = levels_of_both(low, high)?;
                self.run_and_cut(levels)
            }
            Action::Sets { variable: _ } => self.run(0, false),
            Action::Ranges { low, high } => {
                let levels = levels_of_both(low, high)?;
                self.run(levels, false)
            }
        }
    }

    /// A statement inside pardo.
    pub fn begin_on(&mut self, action: &StepAction) -> Result<(), TooMany>
        ensures { OnOk result (spending_is self.new ≡ spend_all (set_events 0 (step_action_is action.now)) (spending_is self.old)) }
    {
        match *action {
            StepAction::Assigns { target, value } => {
                let levels = step_levels(target, value)?;
                self.run(levels, is_step_shared(target))
            }
            StepAction::Turns { test } => {
                let levels = levels(test)?;
                self.turn(levels)?;
                self.vote()
            }
            StepAction::Chooses { test } => {
                let levels = levels(test)?;
                self.run(levels, false)
            }
        }
    }
}
