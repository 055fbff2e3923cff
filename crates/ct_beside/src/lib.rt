//! Changes of two sessions beside each other: those that stay out of each other's way leave each
//! other defined. Definitions and two laws; no code calls it.
#![tactic(auto)]

ghost use Rattle.std.specs.Prelude.{◌≡◌, List, true};
ghost use Rattle.std.specs.List.{list_all};
ghost use Rattle.ct_definitions.specs.declared.change.Change.{Change};
ghost use Rattle.ct_definitions.specs.Changes.{State};
ghost use Rattle.ct_definitions.specs.Histories.{after_changes, allows_all};
ghost use Rattle.ct_definitions.specs.Reached.{IsInOrder};
ghost use Rattle.ct_beside.specs.Apart.{AreApart, HasRoomForAll, is_of_record};

/// Changes of records that are defined on a state stay defined after changes of others, made in between,
/// where both lists are apart.
pub fn changes_stay_defined()
    ensures { (state : State) (own others : List Change) → IsInOrder state → allows_all state own ≡ true → allows_all state others ≡ true
        → list_all is_of_record own ≡ true → AreApart state own others → allows_all (after_changes state others) own ≡ true }
{}

/// Changes of two sessions that are apart stay so after a third one's commit, where that is apart from both
/// and there is room for all three.
pub fn changes_stay_apart()
    ensures { (state : State) (first second others : List Change) → IsInOrder state
        → allows_all state first ≡ true → allows_all state second ≡ true → allows_all state others ≡ true
        → list_all is_of_record first ≡ true → list_all is_of_record second ≡ true
        → AreApart state first second → HasRoomForAll state first second others → AreApart (after_changes state others) first second }
{}
