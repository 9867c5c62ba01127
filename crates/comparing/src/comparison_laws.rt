//! The laws of this crate: what a comparison says of the runs of two programs.

ghost use Rattle.std.specs.Prelude.{◌≡◌, ◌≢◌, ◌↔◌, ◌<◌, ◌≤◌, ◌+◌, ◌-◌, min, ℕ, ℤ, List, [], Option, Some, None, length, slice_get};
ghost use Rattle.std.specs.List.{All, AllPairs, Any, Contains};
ghost use Rattle.pram_check.specs.Checked.{Checked};
ghost use Rattle.pram_model.specs.Layout.{SharedEntry, size};
ghost use Rattle.pram_meaning.specs.Outcome.{IsOutcome};
ghost use Rattle.write_rules.specs.Verdict.{Verdict};
ghost use Rattle.scopes.specs.Runs.{verdict_on};
ghost use Rattle.scopes.specs.Specified.{counting};
ghost use Rattle.comparing.specs.declared.compared.Compared as rust;
ghost use Rattle.comparing.specs.declared.difference.Difference as told;
ghost use Rattle.comparing.specs.Common.{IsBeginning, common, front};
ghost use Rattle.scopes.specs.Handed.{StandsAt};
ghost use Rattle.comparing.specs.Differences.{Run, first_difference};
ghost use Rattle.comparing.specs.Found.{Differing, difference_on, differing, found, most_told, of_so_many};
ghost use Rattle.comparing.specs.Told.{ComeToTheSame, IsDiffering, IsFirst, IsSo, KeepsTo};

/// What a run comes to is its outcome; and each input that counts is counted once, as one on which the programs come to the same, or as one
/// on which they differ.
pub fn every_input_is_counted()
    // What is compared of a run is its outcome, and nothing else is.
    ensures outcome { (p : Checked) (n : ℕ) (input : List ℤ) (v : Verdict) → IsOutcome p input n v ↔ (v ≡ verdict_on p n input) }
    // Each input that counts is counted once, as one on which the programs come to the same or as one on which they
    // differ.
    ensures once { (w : Option Checked) (p q : Checked) (c : rust.Compared) (n most : ℕ) (inputs : List (List ℤ)) →
        (found w p q c n most inputs).same + length (differing p q c n (counting w n inputs)) ≡ length (counting w n inputs) }
{}

/// No input is told exactly where the programs come to the same on all that count. The first that is told is the first of these on which
/// they don't.
pub fn the_first_input_is_told()
    // Where any input may be told, none is exactly where the programs come to the same on all that count.
    ensures none { (w : Option Checked) (p q : Checked) (c : rust.Compared) (n most : ℕ) (inputs : List (List ℤ)) → 0 < most →
        ((found w p q c n most inputs).told ≡ []) ↔ ((found w p q c n most inputs).same ≡ length (counting w n inputs)) }
    // The first input that is told is the first that counts on which they differ, with what differs there first.
    ensures first { (w : Option Checked) (p q : Checked) (c : rust.Compared) (n most : ℕ) (inputs : List (List ℤ)) (d : Differing) →
        slice_get (found w p q c n most inputs).told 0 ≡ Some d → IsFirst p q c n (counting w n inputs) d }
{}

/// As many inputs are told as there are that count and on which the programs differ, or as may be; and each in its place: the one at a
/// place is that of this number among all of these. At least one may be told.
pub fn the_inputs_that_differ_are_told()
    // As many inputs are told as there are that count and on which the programs differ, or as may be told.
    ensures many { (w : Option Checked) (p q : Checked) (c : rust.Compared) (n most : ℕ) (inputs : List (List ℤ)) →
        length (found w p q c n most inputs).told ≡ min most (length (counting w n inputs) - (found w p q c n most inputs).same) }
    // Each input that is told has the place that it has among all that count on which they differ, with what differs
    // there first.
    ensures each { (w : Option Checked) (p q : Checked) (c : rust.Compared) (n most : ℕ) (inputs : List (List ℤ)) (number : ℕ)
        (d : Differing) → slice_get (found w p q c n most inputs).told number ≡ Some d →
        IsDiffering p q c n (counting w n inputs) number d }
    // At least one input may be told.
    ensures some { (values : ℕ) → 0 < most_told values }
{}

/// With a precondition that is found which is found without one of the inputs that count, but for how many inputs there are; and without
/// one all count.
pub fn a_precondition_leaves_inputs_out()
    // What is found is what is found without a precondition of the inputs that count, but for the number of inputs.
    ensures found { (w : Option Checked) (p q : Checked) (c : rust.Compared) (n most : ℕ) (inputs : List (List ℤ)) →
        found w p q c n most inputs ≡ of_so_many (length inputs) (found None p q c n most (counting w n inputs)) }
    // Without a precondition as many inputs count as there are.
    ensures all { (p q : Checked) (c : rust.Compared) (n most : ℕ) (inputs : List (List ℤ)) →
        (found None p q c n most inputs).counting ≡ length inputs }
{}

/// Nothing is told of two runs exactly where they come to the same, and the second keeps to the limits. What is told is so: the two
/// values are those of the two runs, and are not the same. It differs first: all outputs, cells and limits that are told before it agree.
pub fn what_is_told_is_so()
    // Nothing is told of two runs exactly where they come to the same and the second keeps to its limits.
    ensures none { (c : rust.Compared) (v : Verdict) (b : Run) →
        (first_difference c v b ≡ None) ↔ (ComeToTheSame c v b.verdict × KeepsTo c.limits b) }
    // What is told differs between the runs, or is above a limit of the second, and all that could be told before it
    // agrees.
    ensures so { (c : rust.Compared) (v : Verdict) (b : Run) (d : told.Difference) → first_difference c v b ≡ Some d → IsSo c v b d }
{}

/// A program comes to the same as itself, by ranges that have the same cells on both sides, where there are no limits.
pub fn a_program_is_as_itself()
    // A program beside itself never differs, where the ranges have the same cells on both sides and there are no
    // limits.
    ensures { (p : Checked) (c : rust.Compared) (n : ℕ) (input : List ℤ) →
        All (λ r. r.first_start ≡ r.second_start) c.ranges.items → c.limits.time ≡ None → c.limits.work ≡ None →
        difference_on p p c n input ≡ None }
{}

/// The common ranges are those of the declarations that both programs have, each once, in the order of the first program. Where no two
/// declarations of a program have one name, those that it has in common with itself have the same cells on both sides.
pub fn common_ranges_are_of_both()
    // Each common range has the cells of one declaration that both programs have.
    ensures both { (l m : List SharedEntry) → All (λ r. (e : SharedEntry) × StandsAt l e r.first_start × StandsAt m e r.second_start
        × (r.length ≡ size e.bounds)) (common l m) }
    // Each declaration of the first program that the second has too has its range, with its cells in both.
    ensures all { (l m : List SharedEntry) (e : SharedEntry) (start : ℕ) → StandsAt l e start → Contains m e →
        Any (λ r. (r.first_start ≡ start) × (r.length ≡ size e.bounds) × StandsAt m e r.second_start) (common l m) }
    // The ranges ascend in the first program's cells, none over another.
    ensures ascending { (l m : List SharedEntry) → AllPairs (λ r s. r.first_start + r.length ≤ s.first_start) (common l m) }
    // Where a program's names are all different, its ranges with itself have the same cells on both sides.
    ensures itself { (l : List SharedEntry) → AllPairs (λ e f. e.name ≢ f.name) l →
        All (λ r. r.first_start ≡ r.second_start) (common l l) }
{}

/// The declarations at the front of two programs are those with which both begin, as many as may be.
pub fn the_front_is_the_longest_beginning()
    // The common beginning is one of both programs' declarations.
    ensures both { (l m : List SharedEntry) → IsBeginning (front l m) l × IsBeginning (front l m) m }
    // No longer list of declarations is a beginning of both.
    ensures longest { (es l m : List SharedEntry) → IsBeginning es l → IsBeginning es m → IsBeginning es (front l m) }
{}
