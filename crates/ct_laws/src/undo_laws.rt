//! A change that was made can be taken back, and that gives the state before it.
//! A Rewrite and a Delete ask that that state is in order, a Make and an Add ask nothing of it.

ghost use Rattle.std.specs.Prelude.{◌≡◌, ℕ, List, true, Some, fold, reverse};
ghost use Rattle.ct_definitions.specs.declared.change.Change.{Change};
ghost use Rattle.ct_definitions.specs.declared.change.Change.TheVariants.{Make, Add, Delete};
ghost use Rattle.ct_definitions.specs.declared.definition.FileDef.{FileDef};
ghost use Rattle.ct_definitions.specs.Changes.{State, allows, changed, allows_back, changed_back, inverse_of};
ghost use Rattle.ct_definitions.specs.Histories.{after_changes, allows_all};
ghost use Rattle.ct_definitions.specs.Reached.{IsInOrder};
ghost use Rattle.ct_laws.specs.Allowed.{LastIsEmpty};

/// Taking back is defined after the change, and gives the state again.
/// Of many changes the last is taken back first.
pub fn changes_are_undone()
    ensures allowed { (state : State) (change : Change)
        → IsInOrder state → allows state change ≡ true
        → allows_back (changed state change) change ≡ true }
    ensures undone { (state : State) (change : Change)
        → IsInOrder state → allows state change ≡ true
        → changed_back (changed state change) change ≡ state }
    ensures all { (state : State) (changes : List Change)
        → IsInOrder state → allows_all state changes ≡ true
        → fold changed_back (after_changes state changes) (reverse changes) ≡ state }
{}

/// The same by the inverse change, where there is one: for each change but a Make.
pub fn inverses_undo()
    ensures allowed { (state : State) (change inverse : Change)
        → IsInOrder state → allows state change ≡ true
        → inverse_of change ≡ Some inverse → allows (changed state change) inverse ≡ true }
    ensures undone { (state : State) (change inverse : Change)
        → IsInOrder state → allows state change ≡ true
        → inverse_of change ≡ Some inverse → changed (changed state change) inverse ≡ state }
{}

/// A Make and an Add are undone in any state.
pub fn new_ones_are_undone()
    ensures make_allowed { (state : State) (file : ℕ) (def : FileDef)
        → allows state (Make file def) ≡ true
        → allows_back (changed state (Make file def)) (Make file def) ≡ true }
    ensures make { (state : State) (file : ℕ) (def : FileDef)
        → allows state (Make file def) ≡ true
        → changed_back (changed state (Make file def)) (Make file def) ≡ state }
    ensures add_allowed { (state : State) (file num : ℕ) (new : List ℕ)
        → allows state (Add file num new) ≡ true
        → allows (changed state (Add file num new)) (Delete file num new) ≡ true }
    ensures add { (state : State) (file num : ℕ) (new : List ℕ)
        → allows state (Add file num new) ≡ true
        → changed (changed state (Add file num new)) (Delete file num new) ≡ state }
{}

/// What can be taken back leaves a state in order. A change with an inverse can then be made again,
/// and gives the state that was; a Make had added the last file, with no records.
pub fn what_is_taken_back()
    ensures order { (state : State) (change : Change)
        → IsInOrder state → allows_back state change ≡ true → IsInOrder (changed_back state change) }
    ensures allowed { (state : State) (change inverse : Change)
        → IsInOrder state → allows_back state change ≡ true → inverse_of change ≡ Some inverse
        → allows (changed_back state change) change ≡ true }
    ensures made { (state : State) (change inverse : Change)
        → IsInOrder state → allows_back state change ≡ true → inverse_of change ≡ Some inverse
        → changed (changed_back state change) change ≡ state }
    ensures make { (state : State) (file : ℕ) (def : FileDef)
        → allows_back state (Make file def) ≡ true
        → LastIsEmpty file state (changed_back state (Make file def)) }
{}
