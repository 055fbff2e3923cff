//! A page that is read: its header's fields and its body, where the header is in the grammar.

ghost use Rattle.std.specs.Prelude.{◌≡◌, ◌≤◌, ◌+◌, length, drop, IsSome, IfSome, is_some, slice_index};
ghost use Rattle.ct_page.specs.Fields.{u16_at, u64_at, are_zero};
ghost use Rattle.ct_page.specs.Headers.{has_header, is_unused_zero, has_header_of};
ghost use Rattle.ct_page.specs.Kinds.{kind_of};

use crate::fields::{PAGE_SIZE, u16_at, u64_at};
use crate::header::HEADER_SIZE;
use crate::kind::PageKind;

/// Where the zeros of a header begin, behind its key length.
const HEADER_END: usize = 25;

/// Reads pages.
pub struct Page;

/// A page whose header is in the grammar. The fields are those of `Header`.
#[derive(Clone, Copy, Debug)]
pub struct PageView<'a> {
    /// The number of the page's kind.
    pub kind: u8,
    pub file: u16,
    pub index: u16,
    pub count: u16,
    pub position: u64,
    pub right: u64,
    pub key_len: u8,
    /// The 3,968 bytes behind the header.
    pub body: &'a [u8],
}

impl Page {
    /// Reads a page, or answers `None` where its header is outside the grammar. It takes no memory.
    pub fn read(bytes: &[u8; PAGE_SIZE]) -> Option<PageView<'_>>
        ensures grammar { is_some result ≡ has_header bytes.now }
        ensures kind { IfSome result (λ view. view.kind ≡ slice_index bytes.now 0) }
        ensures known { IfSome result (λ view. IsSome (kind_of view.kind)) }
        ensures file { IfSome result (λ view. view.file ≡ u16_at 2 bytes.now) }
        ensures index { IfSome result (λ view. view.index ≡ u16_at 4 bytes.now) }
        ensures count { IfSome result (λ view. view.count ≡ u16_at 6 bytes.now) }
        ensures position { IfSome result (λ view. view.position ≡ u64_at 8 bytes.now) }
        ensures right { IfSome result (λ view. view.right ≡ u64_at 16 bytes.now) }
        ensures key_len { IfSome result (λ view. view.key_len ≡ slice_index bytes.now 24) }
        ensures body { IfSome result (λ view. view.body.now ≡ drop 128 bytes.now) }
    {
        if !has_header(bytes) {
            return None;
        }
        Some(PageView {
            kind: bytes[0],
            file: u16_at(bytes, 2),
            index: u16_at(bytes, 4),
            count: u16_at(bytes, 6),
            position: u64_at(bytes, 8),
            right: u64_at(bytes, 16),
            key_len: bytes[24],
            body: &bytes[HEADER_SIZE..],
        })
    }
}

/// Whether the header of a page is in the grammar: the kind is one of 0 to 6, and the unused bytes of
/// the header are zero; of a page that was not written yet every byte is.
pub fn has_header(bytes: &[u8; PAGE_SIZE]) -> bool
    ensures { result ≡ has_header bytes.now }
{
    match PageKind::from_number(bytes[0]) {
        None => false,
        Some(PageKind::Unwritten) => are_zero(bytes),
        Some(_) => is_unused_zero(bytes),
    }
}

/// Whether the bytes of a header that no field uses are zero.
fn is_unused_zero(bytes: &[u8; PAGE_SIZE]) -> bool
    ensures { result ≡ is_unused_zero bytes.now }
{
    bytes[1] == 0 && are_zero(&bytes[HEADER_END..HEADER_SIZE])
}

/// Whether all of these bytes are zero.
pub fn are_zero(bytes: &[u8]) -> bool
    ensures { result ≡ are_zero bytes.now }
{
    bytes.iter().all(|byte| *byte == 0)
}
