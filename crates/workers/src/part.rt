//! A worker's part of a run, under a rule.

use crate::gates::Gate;
use crate::task::Task;
use address_map::AddressMap;
use bsp_machine::CountedWorker;
use std::sync::Wait;
use turnstile::RowSeat;
use write_rules::{RuleBody, WriteRule};

/// A task that is to be worked off, and what its worker waits with.
pub(crate) struct Part<'b, 'a, R: Wait, M: AddressMap, G: Gate> {
    pub(crate) rt: &'b R,
    pub(crate) gate: &'b G,
    pub(crate) task: Task<'a, M>,
}

impl<'b, 'a, R: Wait, M: AddressMap, G: Gate> RuleBody for Part<'b, 'a, R, M, G> {
    ghost use Rattle.std.specs.Prelude.{◌≡◌};
    ghost use Rattle.workers.specs.Tasks.{HasPlayed};

    type Answer = (RowSeat, CountedWorker);

    ghost can_run = { λ b rule. rule ≡ b.task.run.code.rule };

    ghost gives = { λ b rule played. HasPlayed M.shape b.task played.0 played.1 };

    fn run<W: WriteRule>(self, rule: &W) -> (RowSeat, CountedWorker) {
        let Part { rt, gate, task } = self;
        task.work_by(rt, rule, gate)
    }
}
