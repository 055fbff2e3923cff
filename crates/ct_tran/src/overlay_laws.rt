//! What follows of overlays: a search among what a session sees is one among the shared pairs and one among
//! its own, and an overlay follows each pair that is taken away or put.

ghost use Rattle.std.specs.Prelude.{◌≡◌, List, true, false};
ghost use Rattle.std.specs.List.Sorted.{IsStrictlySortedBy};
ghost use Rattle.ct_definitions.specs.Pairs.{Pair, pair_cmp, with_pair};
ghost use Rattle.ct_pairs.specs.Finds.{has_pair, without_pair, found_pair};
ghost use Rattle.ct_pairs.specs.declared.seek.Seek.{Seek};
ghost use Rattle.ct_tran.specs.Overlays.{Overlaying, without_pairs, overlaid, with_taken, with_put, chosen};

/// A search among what a session sees finds the lesser, or greater, of what it finds among the shared pairs
/// without those taken away, and among the own ones.
pub fn searches_are_merged()
    ensures { (seek : Seek) (own : Overlaying) (shared : List Pair) → IsStrictlySortedBy pair_cmp shared → IsStrictlySortedBy pair_cmp own.puts
        → found_pair seek (overlaid own shared) ≡ chosen seek (found_pair seek (without_pairs own.takes shared)) (found_pair seek own.puts) }
{}

/// What a session sees loses a pair that is taken away, and has a pair that is put at its place.
pub fn overlays_follow_changes()
    // An own pair is not among the shared ones that are left.
    ensures taken { (pair : Pair) (own : Overlaying) (shared : List Pair) → IsStrictlySortedBy pair_cmp shared
        → (has_pair pair own.puts ≡ true → has_pair pair (without_pairs own.takes shared) ≡ false)
        → overlaid (with_taken pair own) shared ≡ without_pair pair (overlaid own shared) }
    // A pair taken away is a shared one.
    ensures put { (pair : Pair) (own : Overlaying) (shared : List Pair) → IsStrictlySortedBy pair_cmp shared
        → (has_pair pair own.takes ≡ true → has_pair pair shared ≡ true)
        → overlaid (with_put pair own) shared ≡ with_pair pair (overlaid own shared) }
{}
