//! What follows of the definitions of a record page.

ghost use Rattle.std.specs.Prelude.{◌≡◌, ◌<◌, ◌^◌, List, ℕ};
ghost use Rattle.ct_page.specs.Headers.{IsPage, with_position};
ghost use Rattle.ct_slots.specs.Pages.{RecordPage, IsRecordPage, at_position, page_of, shown_on};

/// A page with another position is a record page where it was one, and nowhere else, and shows the same
/// records; the page of some records with another position is their page at that position.
pub fn positions_keep_records()
    ensures page { (position : ℕ) (page : List ℕ) → position < 2 ^ 64 → IsRecordPage page → IsRecordPage (with_position position page) }
    ensures shown { (position : ℕ) (page : List ℕ) → position < 2 ^ 64 → IsRecordPage page → shown_on (with_position position page) ≡ at_position position (shown_on page) }
    ensures back { (position : ℕ) (page : List ℕ) → IsPage page → IsRecordPage (with_position position page) → IsRecordPage page }
    ensures text { (position : ℕ) (shown : RecordPage) → with_position position (page_of shown) ≡ page_of (at_position position shown) }
{}
