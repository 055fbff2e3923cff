//! Every state that is reached from the empty one is in order.
//! An allowed change keeps a state in order, and so do changes and transactions one after another.

ghost use Rattle.std.specs.Prelude.{◌≡◌, ℕ, List, [], true};
ghost use Rattle.ct_definitions.specs.declared.change.Change.{Change};
ghost use Rattle.ct_definitions.specs.declared.change.Transaction.{Transaction};
ghost use Rattle.ct_definitions.specs.Changes.{State, allows, changed};
ghost use Rattle.ct_definitions.specs.Histories.{History, IsHistory, allows_all, are_defined};
ghost use Rattle.ct_definitions.specs.Histories.{after_changes, after_transactions, after, after_up_to};
ghost use Rattle.ct_definitions.specs.Reached.{IsInOrder};

/// The empty state is in order, and stays so under each change that is allowed.
pub fn changes_keep_order()
    ensures empty { IsInOrder [] }
    ensures changed { (state : State) (change : Change)
        → IsInOrder state → allows state change ≡ true
        → IsInOrder (changed state change) }
    ensures after { (state : State) (changes : List Change)
        → IsInOrder state → allows_all state changes ≡ true
        → IsInOrder (after_changes state changes) }
{}

/// A history whose base is in order has states in order alone.
pub fn histories_keep_order()
    ensures transactions { (state : State) (last : ℕ) (transactions : List Transaction)
        → IsInOrder state → are_defined state last transactions ≡ true
        → IsInOrder (after_transactions state transactions) }
    ensures history { (history : History)
        → IsInOrder history.base → IsHistory history → IsInOrder (after history) }
    ensures up_to { (history : History) (n : ℕ) → IsInOrder history.base → IsHistory history
        → IsInOrder (after_up_to history n) }
{}
