//! The laws of this crate: what is handed on to a postcondition.

ghost use Rattle.std.specs.Prelude.{◌≡◌, ◌≤◌, ℕ, ℤ, List, pos, drop, length, replicate, take};
ghost use Rattle.pram_check.specs.Bounded.{IsBounded};
ghost use Rattle.pram_check.specs.Checked.{Checked};
ghost use Rattle.pram_meaning.specs.Outcome.{IsOutcome, opening};
ghost use Rattle.pram_model.specs.Declarations.{IsNew, names_of};
ghost use Rattle.pram_model.specs.Layout.{SharedEntry, size, total_size};
ghost use Rattle.write_rules.specs.Verdict.{Ended};
ghost use Rattle.scopes.specs.Handed.{StandsAt, handed_on, offered, opened};

/// A declaration of the postcondition that the program has too, of one name with the same bounds, gets the cells that a run of the program
/// left of it; one that is so but for `opening_` before its name gets those that the program held before the run, unless the program itself
/// declares its name; and one of another name gets zeros. A run is on an input of no more values than the program has cells, and the
/// program is within its bounds, as every one is.
pub fn each_declaration_gets_its_cells()
    // A declaration that the program has too gets the cells that the run left of it.
    ensures left { (p q : Checked) (n : ℕ) (input output left : List ℤ) (e : SharedEntry) (from to : ℕ) → IsBounded p →
        length input ≤ total_size p.layout → IsOutcome p input n (Ended output left) → StandsAt p.layout e from → StandsAt q.layout e to →
        take (size e.bounds) (drop to (handed_on p q input left)) ≡ take (size e.bounds) (drop from left) }
    // One that the program has without `opening_`, and not with it, gets the cells that the program held before the run.
    ensures before { (p q : Checked) (n : ℕ) (input output left : List ℤ) (e : SharedEntry) (from to : ℕ) → IsBounded p →
        length input ≤ total_size p.layout → IsOutcome p input n (Ended output left) → IsNew (names_of p.layout) (opened e).name →
        StandsAt p.layout e from → StandsAt q.layout (opened e) to →
        take (size e.bounds) (drop to (handed_on p q input left)) ≡ take (size e.bounds) (drop from (opening p input).cells) }
    // One of another name gets zeros.
    ensures zeros { (p q : Checked) (n : ℕ) (input output left : List ℤ) (e : SharedEntry) (to : ℕ) → length input ≤ total_size p.layout →
        IsOutcome p input n (Ended output left) → IsNew (names_of (offered p.layout)) e.name → StandsAt q.layout e to →
        take (size e.bounds) (drop to (handed_on p q input left)) ≡ replicate (size e.bounds) (pos 0) }
    // The postcondition gets as many values as it has cells.
    ensures count { (p q : Checked) (n : ℕ) (input output left : List ℤ) → length input ≤ total_size p.layout →
        IsOutcome p input n (Ended output left) → length (handed_on p q input left) ≡ total_size q.layout }
{}
