//! A change is allowed on a state in order exactly where its records are as it says, the length fits,
//! and afterwards no key stands twice in a unique index and each block has room.

ghost use Rattle.std.specs.Prelude.{◌≡◌, ◌↔◌, ℕ, List, true, not};
ghost use Rattle.std.specs.List.{list_all};
ghost use Rattle.ct_definitions.specs.declared.definition.FileDef.{FileDef};
ghost use Rattle.ct_definitions.specs.declared.store.File.{File};
ghost use Rattle.ct_definitions.specs.declared.change.Change.TheVariants.{Make, Add, Rewrite, Delete};
ghost use Rattle.ct_definitions.specs.Changes.{State, allows, has_taken_key};
ghost use Rattle.ct_definitions.specs.Reached.{IsInOrder, IsFileInOrder};
ghost use Rattle.ct_laws.specs.Allowed.{HasKeysOnce, CanMake, CanAdd, CanRewrite, CanDelete};

/// A Make, on any state.
pub fn makes_are_allowed()
    ensures { (state : State) (file : ℕ) (def : FileDef)
        → (allows state (Make file def) ≡ true) ↔ CanMake state file def }
{}

/// An Add.
pub fn adds_are_allowed()
    ensures { (state : State) (file num : ℕ) (new : List ℕ) → IsInOrder state
        → (allows state (Add file num new) ≡ true) ↔ CanAdd state file num new }
{}

/// A Rewrite.
pub fn rewrites_are_allowed()
    ensures { (state : State) (file num : ℕ) (old new : List ℕ) → IsInOrder state
        → (allows state (Rewrite file num old new) ≡ true) ↔ CanRewrite state file num old new }
{}

/// A Delete, on any state.
pub fn deletes_are_allowed()
    ensures { (state : State) (file num : ℕ) (old : List ℕ)
        → (allows state (Delete file num old) ≡ true) ↔ CanDelete state file num old }
{}

/// The test of the other records, made of each record, says that no key stands twice.
pub fn keys_stand_once()
    ensures test { (file : File)
        → (list_all (λ row. not (has_taken_key file row.num row.image)) file.records ≡ true)
        ↔ HasKeysOnce file }
    ensures order { (file : File) → IsFileInOrder file → HasKeysOnce file }
{}
