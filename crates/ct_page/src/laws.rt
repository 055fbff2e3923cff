//! What follows of the definitions of a page's numbers and its header.

ghost use Rattle.std.specs.Prelude.{◌≡◌, ◌≢◌, ◌≤◌, ◌<◌, ◌+◌, ◌^◌, ◌++◌, ◌==◌, ◌&&◌, ◌⊎◌, List, ℕ, length, drop, All, IsTrue, Some, None, slice_index, true};
ghost use Rattle.ct_page.specs.Fields.{u16_at, u64_at, with_u16, with_u64};
ghost use Rattle.ct_page.specs.Headers.{header_bytes, header_of, has_header, has_fields, with_position, IsPage};
ghost use Rattle.ct_page.specs.Kinds.{number_of, kind_of};
ghost use Rattle.ct_page.specs.declared.header.Header.{Header};
ghost use Rattle.ct_page.specs.declared.kind.PageKind.{PageKind};
ghost use Rattle.ct_page.specs.declared.kind.PageKind.TheVariants.{Unwritten};

/// A number that was written is read again, and a number apart from it is left as it was.
pub fn fields_are_exact()
    ensures short { (at n : ℕ) (page : List ℕ) → at + 2 ≤ length page → n < 2 ^ 16 → u16_at at (with_u16 at n page) ≡ n }
    ensures long { (at n : ℕ) (page : List ℕ) → at + 8 ≤ length page → n < 2 ^ 64 → u64_at at (with_u64 at n page) ≡ n }
    ensures short_beside_short { (at other n : ℕ) (page : List ℕ) → at + 2 ≤ length page → (at + 2 ≤ other) ⊎ (other + 2 ≤ at)
        → u16_at other (with_u16 at n page) ≡ u16_at other page }
    ensures long_beside_short { (at other n : ℕ) (page : List ℕ) → at + 2 ≤ length page → (at + 2 ≤ other) ⊎ (other + 8 ≤ at)
        → u64_at other (with_u16 at n page) ≡ u64_at other page }
    ensures short_beside_long { (at other n : ℕ) (page : List ℕ) → at + 8 ≤ length page → (at + 8 ≤ other) ⊎ (other + 2 ≤ at)
        → u16_at other (with_u64 at n page) ≡ u16_at other page }
    ensures long_beside_long { (at other n : ℕ) (page : List ℕ) → at + 8 ≤ length page → (at + 8 ≤ other) ⊎ (other + 8 ≤ at)
        → u64_at other (with_u64 at n page) ≡ u64_at other page }
    ensures len_short { (at n : ℕ) (page : List ℕ) → at + 2 ≤ length page → length (with_u16 at n page) ≡ length page }
    ensures len_long { (at n : ℕ) (page : List ℕ) → at + 8 ≤ length page → length (with_u64 at n page) ≡ length page }
{}

/// A header that was written is read with its fields, and a header that is read is written with its bytes.
pub fn headers_are_exact()
    ensures kinds { (kind : PageKind) → kind_of (number_of kind) ≡ Some kind }
    ensures again { (header : Header) (body : List ℕ) → IsTrue (has_fields header) → header_of (header_bytes header ++ body) ≡ Some header }
    ensures grammar { (header : Header) (body : List ℕ) → header.kind ≢ Unwritten → IsTrue (has_header (header_bytes header ++ body)) }
    ensures back { (page : List ℕ) (header : Header) → IsPage page → IsTrue (has_header page) → header_of page ≡ Some header
        → header_bytes header ++ drop 128 page ≡ page }
{}

/// A page with another position has that position and all else as it was, and its header stays in the
/// grammar, or outside; but a page that was not written yet stays in it at position 0 alone.
pub fn positions_are_exact()
    ensures position { (position : ℕ) (page : List ℕ) → IsPage page → position < 2 ^ 64 → u64_at 8 (with_position position page) ≡ position }
    ensures same_file { (position : ℕ) (page : List ℕ) → IsPage page → u16_at 2 (with_position position page) ≡ u16_at 2 page }
    ensures same_index { (position : ℕ) (page : List ℕ) → IsPage page → u16_at 4 (with_position position page) ≡ u16_at 4 page }
    ensures same_count { (position : ℕ) (page : List ℕ) → IsPage page → u16_at 6 (with_position position page) ≡ u16_at 6 page }
    ensures same_right { (position : ℕ) (page : List ℕ) → IsPage page → u64_at 16 (with_position position page) ≡ u64_at 16 page }
    ensures same_kind { (position : ℕ) (page : List ℕ) → IsPage page → slice_index (with_position position page) 0 ≡ slice_index page 0 }
    ensures same_body { (position : ℕ) (page : List ℕ) → IsPage page → drop 16 (with_position position page) ≡ drop 16 page }
    ensures grammar { (position : ℕ) (page : List ℕ) → IsPage page → slice_index page 0 ≢ 0
        → has_header (with_position position page) ≡ has_header page }
    ensures unwritten { (position : ℕ) (page : List ℕ) → IsPage page → position < 2 ^ 64 → slice_index page 0 ≡ 0 → IsTrue (has_header page)
        → has_header (with_position position page) ≡ (position == 0) }
    ensures last { (first second : ℕ) (page : List ℕ) → IsPage page → with_position second (with_position first page) ≡ with_position second page }
    ensures own { (page : List ℕ) → IsPage page → with_position (u64_at 8 page) page ≡ page }
    ensures page { (position : ℕ) (page : List ℕ) → IsPage page → IsPage (with_position position page) }
{}
