//! What is wrong with a tree, and its order.

ghost use Rattle.std.specs.Prelude.{◌≡◌, ◌↔◌, ℕ, List, [], length, MatchOption};
ghost use Rattle.std.specs.List.Sorted.{IsStrictlyIncreasing};
ghost use Rattle.pram_trees.specs.Program.{ProgramTree};
ghost use Rattle.pram_trees.specs.Text.{IsTextOf};
ghost use Rattle.pram_names.specs.Breaches.{breaches, first};
ghost use Rattle.pram_check.specs.Faults.{faults, offsets_in, IsAccepted, IsLeast};

/// A tree is accepted exactly if no breach is told of it.
#[tactic(auto, using(crate::proofs::ProgramFaults::nothing_told))]
pub fn breaches_are_told_where_faults_are()
    // Nothing is wrong with a tree exactly where no refusal is told of it.
    ensures exactly { (tree : ProgramTree) → IsAccepted tree ↔ (breaches tree ≡ []) }
{}

/// A refusal stands at the first place of the text where anything is wrong, and tells what has the
/// lowest number of all that is wrong there. Nothing is wrong with an accepted program.
pub fn first_breach_is_least()
    // A refusal stands at the first place where anything is wrong, with the lowest number of what is wrong there;
    // without one nothing is wrong.
    ensures least { (text : List ℕ) (tree : ProgramTree) → IsTextOf text tree →
        MatchOption (first (breaches tree)) (faults tree ≡ []) (IsLeast (length text) (faults tree)) }
    // What is told of a tree stands in the order of the text, one thing at a place.
    ensures ascend { (text : List ℕ) (tree : ProgramTree) → IsTextOf text tree →
        IsStrictlyIncreasing (offsets_in (length text) (breaches tree)) }
{}
