//! The line of a rule.

ghost use Rattle.std.specs.Prelude.{◌≡◌, MatchOption};
ghost use Rattle.pram_model.specs.declared.rule.Rule.{Rule};
ghost use Rattle.superstep_listing.specs.Listing as spec;

use pram_model::Rule;

/// The rule of such a line.
pub(crate) fn rule_of(bytes: &[u8]) -> Option<Rule>
    ensures value { MatchOption result ((r : Rule) → bytes.now ≡ spec.rule_line r → ⊥) (λ r. bytes.now ≡ spec.rule_line r) }
{
    match bytes {
        b"rule erew" => Some(Rule::Erew),
        b"rule crew" => Some(Rule::Crew),
        b"rule common" => Some(Rule::Common),
        b"rule priority" => Some(Rule::Priority),
        b"rule sum" => Some(Rule::Sum),
        _ => None,
    }
}
