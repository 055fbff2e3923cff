//! Laws of what a crash may leave of a disk in memory, each on a function that does nothing.

ghost use Rattle.std.specs.Prelude.{◌≤◌, ◌∷◌, ℕ, List, length};
ghost use Rattle.ct_disk.specs.History.{Event, LeavesSince};

/// What a crash may have left since some moment stays among it, whatever comes after.
pub fn keeps_what_was_left()
    ensures { (n : ℕ) (event : Event) (past : List Event) (c : List ℕ) → n ≤ length past
        → LeavesSince n past c → LeavesSince n (event ∷ past) c }
{}
