//! A change of one record changes what its block uses by what the record uses, and no other block.

ghost use Rattle.std.specs.Prelude.{◌≡◌, ℕ, ◌+◌, List, Some};
ghost use Rattle.ct_definitions.specs.declared.store.Row.{Row};
ghost use Rattle.ct_definitions.specs.Room.{row_at, block_use};
ghost use Rattle.ct_definitions.specs.Changes.{with_row, with_image, without_row};
ghost use Rattle.ct_laws.specs.Shares.{use_in};

/// What each block uses after a change, and what it used before.
pub fn use_after_changes()
    ensures add { (block : ℕ) (new : Row) (rows : List Row) → block_use block (with_row new rows)
        ≡ block_use block rows + use_in block new }
    ensures delete { (block num : ℕ) (row : Row) (rows : List Row) → row_at num rows ≡ Some row
        → block_use block (without_row num rows) + use_in block row ≡ block_use block rows }
    ensures rewrite { (block num : ℕ) (image : List ℕ) (row : Row) (rows : List Row)
        → row_at num rows ≡ Some row
        → block_use block (with_image num image rows) + use_in block row
        ≡ block_use block rows + use_in block (record { num = num; image = image }) }
{}
