//! The pairs of an index are sorted by key and then by number, and are those of the records.
//! A change of one record changes them by that record's pair alone.

ghost use Rattle.std.specs.Prelude.{◌≡◌, ◌↔◌, ℕ, List, Some, true, filter_map};
ghost use Rattle.std.specs.List.{Contains};
ghost use Rattle.std.specs.List.Sorted.{IsSorted, IsPermutation};
ghost use Rattle.ct_definitions.specs.declared.definition.IndexDef.{IndexDef};
ghost use Rattle.ct_definitions.specs.declared.store.Row.{Row};
ghost use Rattle.ct_definitions.specs.declared.store.File.{File};
ghost use Rattle.ct_definitions.specs.Room.{row_at};
ghost use Rattle.ct_definitions.specs.Changes.{with_row, with_image, without_row};
ghost use Rattle.ct_definitions.specs.Pairs.{Pair, pair_cmp, pair_of, pairs_of};
ghost use Rattle.ct_laws.specs.Allowed.{HasKeysOnce};
ghost use Rattle.ct_laws.specs.Shares.{with_found_pair};

/// None is below the one before it, and none is lost or made up.
pub fn pairs_are_sorted()
    ensures sorted { (index : IndexDef) (rows : List Row)
        → IsSorted pair_cmp (pairs_of index rows) }
    ensures same { (index : IndexDef) (rows : List Row)
        → IsPermutation (filter_map (pair_of index) rows) (pairs_of index rows) }
{}

/// A pair is there exactly where a record has it, and none of a unique index has the key of another.
pub fn pairs_are_of_records()
    ensures records { (index : IndexDef) (rows : List Row) (pair : Pair)
        → Contains (pairs_of index rows) pair
        ↔ ((row : Row) × Contains rows row × (pair_of index row ≡ Some pair)) }
    ensures once { (file : File) (index : IndexDef) (a b : Pair)
        → HasKeysOnce file → Contains file.def.indexes index → index.unique ≡ true
        → Contains (pairs_of index file.records) a → Contains (pairs_of index file.records) b
        → a.key ≡ b.key → a.num ≡ b.num }
{}

/// A record added brings its pair, if it has one. One taken away leaves pairs that are with its own
/// those from before. One with another image has its new pair beside those of the others.
pub fn pairs_after_changes()
    ensures add { (index : IndexDef) (new : Row) (rows : List Row)
        → pairs_of index (with_row new rows)
        ≡ with_found_pair (pair_of index new) (pairs_of index rows) }
    ensures delete { (index : IndexDef) (num : ℕ) (row : Row) (rows : List Row)
        → row_at num rows ≡ Some row
        → with_found_pair (pair_of index row) (pairs_of index (without_row num rows))
        ≡ pairs_of index rows }
    ensures rewrite { (index : IndexDef) (num : ℕ) (image : List ℕ) (row : Row) (rows : List Row)
        → row_at num rows ≡ Some row
        → pairs_of index (with_image num image rows)
        ≡ with_found_pair (pair_of index (record { num = num; image = image }))
        (pairs_of index (without_row num rows)) }
{}
