//! The one place in which a rule is matched.

use crate::common::Common;
use crate::exclusive::Exclusive;
use crate::priority::Priority;
use crate::summed::Summed;
use crate::write_rule::WriteRule;
use pram_model::Rule;

/// What is done under a write rule, whichever it is.
pub trait RuleBody {
    ghost use Rattle.pram_model.specs.declared.rule.Rule.{Rule as RuleName};

    type Answer;

    /// What it asks for under a rule.
    ghost can_run: { Self → RuleName → Type 0 };

    /// What it answers under a rule.
    ghost gives: { Self → RuleName → Self.Answer → Type 0 };

    fn run<R: WriteRule>(self, rule: &R) -> Self::Answer
        requires { can_run self (R.rule rule.now) }
        ensures { gives self (R.rule rule.now) result };
}

/// Runs a body under a rule: it is matched here, once, and the body knows which rule it is by a type.
pub fn under<B: RuleBody>(rule: Rule, body: B) -> B::Answer
    requires { B.can_run body rule }
    // What the body answers meets what it promises of the given rule, whichever that is.
    ensures { B.gives body rule result }
{
    match rule {
        Rule::Erew => body.run(&Exclusive {
            shared_reads: false,
        }),
        Rule::Crew => body.run(&Exclusive { shared_reads: true }),
        Rule::Common => body.run(&Common),
        Rule::Priority => body.run(&Priority),
        Rule::Sum => body.run(&Summed),
    }
}
