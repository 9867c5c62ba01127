//! What several processors, cells and workers give is collected in any order.

ghost use Rattle.std.specs.Prelude.{◌≡◌, ◌<◌, Bool, true, false, Option, None};
ghost use Rattle.pram_model.specs.declared.rule.Rule.{Rule as RuleName};
ghost use Rattle.pram_values.specs.Total.{IsMonoid};
ghost use Rattle.write_rules.specs.declared.entry.Entry.{Entry as CellEntry};
ghost use Rattle.write_rules.specs.Combining.{Carries};
ghost use Rattle.superstep_machine.specs.declared.key.Key.{Key as FaultKey};
ghost use Rattle.superstep_machine.specs.Keys.{is_first, least};
ghost use Rattle.pram_values.specs.Place.{is_place_before};
ghost use Rattle.superstep_machine.specs.Setting.{combining};
ghost use Rattle.superstep_machine.specs.Sending.{join, several};
ghost use Rattle.superstep_machine.specs.WrittenCells.{EntriesOfAll, EntriesThatCame, WritersGetTheRule, NoWritersNoVerdict};

/// Which of two keys is told: that of the earlier statement, there that of the lesser position, there
/// a fault of one processor rather than a conflict, and there that of the place that comes first.
pub fn order_of_keys()
    // Of two keys that of the earlier statement is told.
    ensures statement { (a b : FaultKey) → a.count < b.count → is_first a b ≡ true }
    // Of two keys of one statement that of the lesser position is told.
    ensures position { (a b : FaultKey) → a.count ≡ b.count → a.position < b.position → is_first a b ≡ true }
    // Of two keys at one position a fault of one processor is told rather than a conflict.
    ensures class { (a b : FaultKey) → a.count ≡ b.count → a.position ≡ b.position → a.conflict ≡ false → b.conflict ≡ true →
        is_first a b ≡ true }
    // Of two keys at one position, both conflicts or neither, that of the place that comes first is told.
    ensures place { (a b : FaultKey) → a.count ≡ b.count → a.position ≡ b.position → a.conflict ≡ b.conflict
        → is_place_before a.place b.place ≡ true → is_first a b ≡ true }
    // Of two different keys at most one is told rather than the other.
    ensures one { (a b : FaultKey) → is_first a b ≡ true → is_first b a ≡ true → a ≡ b }
    // Of any two keys one is told rather than the other.
    ensures some { (a b : FaultKey) → is_first a b ≡ false → is_first b a ≡ true }
{}

/// The least key, what the writers of a cell come to, and whether two or more ask for a cell: each
/// is a sum in a commutative monoid, so that neither the order nor the workers matter. Writers are
/// combined as the rule says.
pub fn collected_in_any_order()
    // The least of some keys is the same in any order and by any grouping.
    ensures keys { IsMonoid (Option FaultKey) None least }
    // A key that all workers note is one key.
    ensures again { (key : Option FaultKey) → least key key ≡ key }
    // The writers of a cell come to the same entry in any order and by any grouping, under every rule.
    ensures entries { (rule : RuleName) → IsMonoid (Option CellEntry) None (join rule) }
    // The entry of a cell's writers, different processors, comes to what the rule gives for them, however they are
    // joined two by two.
    ensures carried { (rule : RuleName) → Carries rule (combining rule) }
    // Whether none, one, or two or more ask for a cell is the same in any order and by any grouping.
    ensures askers { IsMonoid (Option Bool) None several }
{}

/// What the writes of all workers leave in a cell is the rule's value on the cell's writers, whoever
/// holds them.
pub fn writers_get_what_the_rule_gives()
    // What all workers hold for a cell comes to the entry of all their writes to it, whoever holds them.
    ensures all { EntriesOfAll }
    // The messages of all workers bring to the cell's module the entry of all their writes to it.
    ensures came { EntriesThatCame }
    // The verdict on a cell's writers, where these are different processors, is what the rule gives for them.
    ensures given { WritersGetTheRule }
    // There is no verdict on a cell without writers.
    ensures none { NoWritersNoVerdict }
{}
