//! What is found in a state after a change of one file's records, and among these records.
//! Whatever the change does not name stays.

ghost use Rattle.std.specs.Prelude.{◌≡◌, ◌≢◌, ℕ, List, true, Some, None, length, slice_get, option_map};
ghost use Rattle.ct_definitions.specs.declared.store.Row.{Row};
ghost use Rattle.ct_definitions.specs.Room.{row_at};
ghost use Rattle.ct_definitions.specs.Reached.{rise_above};
ghost use Rattle.ct_definitions.specs.Changes.{State, in_file, with_records, with_row, with_image, without_row};

/// The file has its records as the change makes them, and every other file stays.
pub fn files_after_change()
    ensures own { (state : State) (file : ℕ) (change : List Row → List Row)
        → slice_get (in_file state file change) file
        ≡ option_map (λ f. with_records f (change f.records)) (slice_get state file) }
    ensures others { (state : State) (at file : ℕ) (change : List Row → List Row) → at ≢ file
        → slice_get (in_file state file change) at ≡ slice_get state at }
    ensures count { (state : State) (file : ℕ) (change : List Row → List Row)
        → length (in_file state file change) ≡ length state }
{}

/// A record of a free number is found under it, and every other record stays.
pub fn records_after_add()
    ensures own { (new : Row) (rows : List Row)
        → row_at new.num rows ≡ None → row_at new.num (with_row new rows) ≡ Some new }
    ensures others { (num : ℕ) (new : Row) (rows : List Row)
        → num ≢ new.num → row_at num (with_row new rows) ≡ row_at num rows }
{}

/// The record has the other image, and every other record stays.
pub fn records_after_rewrite()
    ensures own { (num : ℕ) (image : List ℕ) (rows : List Row)
        → row_at num (with_image num image rows)
        ≡ option_map (λ row. record { num = num; image = image }) (row_at num rows) }
    ensures others { (at num : ℕ) (image : List ℕ) (rows : List Row) → at ≢ num
        → row_at at (with_image num image rows) ≡ row_at at rows }
{}

/// Where numbers rise the record is gone, and every other record stays.
pub fn records_after_delete()
    ensures own { (num last : ℕ) (rows : List Row)
        → rise_above last rows ≡ true → row_at num (without_row num rows) ≡ None }
    ensures others { (at num : ℕ) (rows : List Row)
        → at ≢ num → row_at at (without_row num rows) ≡ row_at at rows }
{}
