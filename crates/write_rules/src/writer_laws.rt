//! The order of the writers of a cell, which says nothing.

ghost use Rattle.std.specs.Prelude.{◌≡◌, List, ◌∷◌};
ghost use Rattle.std.specs.List.Sorted.{IsPermutation};
ghost use Rattle.pram_model.specs.declared.rule.Rule.{Rule as RuleName};
ghost use Rattle.write_rules.specs.Combining.{Combining, Carries, AreWriters, joined};
ghost use Rattle.write_rules.specs.Rule.{rule_value};
ghost use Rattle.write_rules.specs.declared.write.Write as specification;

/// A write rule is a rule on the set of a cell's writers: in whatever order they come, they are
/// joined to the same entry, and the rule gives the same.
#[tactic(auto, using(crate::proofs::Orders::joined_again, crate::proofs::Orders::rule_again))]
pub fn writers_have_no_order()
    // Under each rule the writers of a cell, in any order, are joined to the same entry.
    ensures joined { (rule : RuleName) (c : Combining) → Carries rule c → (w v : specification.Write) (ws vs : List specification.Write)
        → IsPermutation (w ∷ ws) (v ∷ vs) → joined c w ws ≡ joined c v vs }
    // A rule gives the same for writers with different indices in any order.
    ensures given { (rule : RuleName) (w v : specification.Write) (ws vs : List specification.Write)
        → AreWriters (w ∷ ws) → AreWriters (v ∷ vs) → IsPermutation (w ∷ ws) (v ∷ vs) → rule_value rule w ws ≡ rule_value rule v vs }
{}
