//! The laws of this crate.

ghost use Rattle.std.specs.Prelude.{◌≡◌, ◌≤◌, ◌-◌, ◌++◌, ◌∷◌, ℕ, [], List, length, map};
ghost use Rattle.std.specs.List.{range_with_len};
ghost use Rattle.exchange_counts.specs.declared.count.Count.{Count as Counted};
ghost use Rattle.exchange_counts.specs.Columns.{column_of, AreColumns, AreSame, GrowBy};
ghost use Rattle.exchange_counts.specs.CountedExchanges.{exchange_counted, exchange_told, exchanges_told, exchange_at};

/// As many exchanges are told as worker 0 counted.
pub fn as_many_are_told()
    ensures { (columns : List (List Counted)) → length (exchanges_told columns) ≡ length (column_of columns 0) }
{}

/// Exchange k of what is told, from 1, is what the workers counted at it.
pub fn each_is_told()
    ensures { (columns : List (List Counted)) (k : ℕ) → 1 ≤ k → k ≤ length (column_of columns 0) →
        exchange_at (exchanges_told columns) k ≡ exchange_told columns (k - 1) }
{}

/// Columns with the same entries tell the same exchanges.
pub fn same_counts_tell_the_same()
    ensures { (columns others : List (List Counted)) → AreColumns columns → AreSame columns others →
        exchanges_told columns ≡ exchanges_told others }
{}

/// Where each worker counts one exchange more, that exchange is told behind the others.
pub fn one_more_is_told()
    ensures { (columns more : List (List Counted)) (count : ℕ → Counted) → AreColumns columns → GrowBy count columns more →
        exchanges_told more ≡ exchanges_told columns ++ exchange_counted (map count (range_with_len 0 (length columns))) ∷ [] }
{}

/// What has grown so has as many entries for each worker again.
pub fn grown_columns_are_columns()
    ensures { (columns more : List (List Counted)) (count : ℕ → Counted) → AreColumns columns → GrowBy count columns more →
        AreColumns more }
{}
