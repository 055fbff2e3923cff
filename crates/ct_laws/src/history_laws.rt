//! Histories: in parts, up to a number and from one on, one transaction more,
//! and one that begins another.

ghost use Rattle.std.specs.Prelude.{◌≡◌, ◌≤◌, ℕ, ◌+◌, List, [], ◌∷◌, ◌++◌, length, filter, true, ◌&&◌, nat_le};
ghost use Rattle.ct_definitions.specs.declared.change.Change.{Change};
ghost use Rattle.ct_definitions.specs.declared.change.Transaction.{Transaction};
ghost use Rattle.ct_definitions.specs.Changes.{State};
ghost use Rattle.ct_definitions.specs.Histories.{History, IsHistory, Begins, allows_all, are_defined};
ghost use Rattle.ct_definitions.specs.Histories.{after_changes, after_transactions, after, after_up_to};
ghost use Rattle.ct_definitions.specs.Histories.{last_number, transactions_above};
ghost use Rattle.ct_laws.specs.Cut.{history_up_to, history_from, history_with};

/// Changes, and transactions, made in two parts.
pub fn histories_in_parts()
    ensures changes { (state : State) (first rest : List Change)
        → after_changes state (first ++ rest) ≡ after_changes (after_changes state first) rest }
    ensures allowed { (state : State) (first rest : List Change)
        → allows_all state (first ++ rest)
        ≡ (allows_all state first && allows_all (after_changes state first) rest) }
    ensures transactions { (state : State) (first rest : List Transaction)
        → after_transactions state (first ++ rest)
        ≡ after_transactions (after_transactions state first) rest }
    ensures defined { (state : State) (last : ℕ) (first rest : List Transaction)
        → are_defined state last (first ++ rest) ≡ (are_defined state last first
        && are_defined (after_transactions state first) (last + length first) rest) }
{}

/// What a history says of its own first and last number, and that each number parts its transactions.
pub fn histories_up_to()
    ensures last { (history : History) → IsHistory history
        → after_up_to history (last_number history) ≡ after history }
    ensures base { (history : History) → IsHistory history
        → after_up_to history history.base_number ≡ history.base }
    ensures above_base { (history : History) → IsHistory history
        → transactions_above history.base_number history ≡ history.transactions }
    ensures parts { (history : History) (n : ℕ) → IsHistory history
        → filter (λ t. nat_le t.number n) history.transactions ++ transactions_above n history
        ≡ history.transactions }
{}

/// A history goes on by a transaction of the next number that is defined on its last state.
pub fn histories_grow()
    ensures history { (history : History) (t : Transaction) → IsHistory history
        → t.number ≡ last_number history + 1 → allows_all (after history) t.changes ≡ true
        → IsHistory (history_with t history) }
    ensures after { (history : History) (t : Transaction)
        → after (history_with t history) ≡ after_changes (after history) t.changes }
    ensures last { (history : History) (t : Transaction)
        → last_number (history_with t history) ≡ last_number history + 1 }
    ensures begins { (history : History) (t : Transaction) → IsHistory history
        → Begins history (history_with t history) }
{}

/// A history begins itself, and whatever is begun by one that it begins.
pub fn histories_begin()
    ensures itself { (history : History) → IsHistory history → Begins history history }
    ensures onward { (early middle late : History) → IsHistory early → IsHistory middle
        → Begins early middle → Begins middle late → Begins early late }
{}

/// A history up to one of its numbers is a history, which begins the whole.
pub fn histories_stop()
    ensures history { (history : History) (n : ℕ) → IsHistory history
        → IsHistory (history_up_to n history) }
    ensures last { (history : History) (n : ℕ) → IsHistory history
        → history.base_number ≤ n → n ≤ last_number history
        → last_number (history_up_to n history) ≡ n }
    ensures begins { (history : History) (n : ℕ) → IsHistory history
        → history.base_number ≤ n → n ≤ last_number history
        → Begins (history_up_to n history) history }
{}

/// A history from the state after one of its numbers on is a history.
/// The whole begins it, and it ends where the whole ends.
pub fn histories_go_on()
    ensures history { (history : History) (n : ℕ) → IsHistory history
        → history.base_number ≤ n → n ≤ last_number history
        → IsHistory (history_from n history) }
    ensures after { (history : History) (n : ℕ) → IsHistory history
        → after (history_from n history) ≡ after history }
    ensures last { (history : History) (n : ℕ) → IsHistory history
        → history.base_number ≤ n → n ≤ last_number history
        → last_number (history_from n history) ≡ last_number history }
    ensures begins { (history : History) (n : ℕ) → IsHistory history
        → history.base_number ≤ n → n ≤ last_number history
        → Begins history (history_from n history) }
{}
