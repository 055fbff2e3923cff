//! The header of a page, written as its first 128 bytes, and the position in it set alone.

ghost use Rattle.std.specs.Prelude.{◌≡◌, ◌++◌, drop};
ghost use Rattle.ct_page.specs.Headers.{header_bytes, with_position};

use crate::fields::{PAGE_SIZE, set_u16, set_u64};
use crate::kind::PageKind;

/// How many bytes a header has. The page's body follows it.
pub const HEADER_SIZE: usize = 128;

/// The file of a page that belongs to none.
pub const NO_FILE: u16 = 65535;

/// The index of a page that belongs to none.
pub const NO_INDEX: u16 = 65535;

/// Where the position stands in a page.
const POSITION: usize = 8;

/// The fields of a page's header.
#[derive(Clone, Copy, Debug, PartialEq, Eq)]
pub struct Header {
    pub kind: PageKind,
    /// The number of the file, or `NO_FILE`.
    pub file: u16,
    /// The number of the index, or `NO_INDEX`.
    pub index: u16,
    /// How many entries the body has.
    pub count: u16,
    /// The ordinal of the last group in the log that has this page.
    pub position: u64,
    /// The page to the right, or 0 where there is none.
    pub right: u64,
    /// How long each key on the page is, or 0 where it has none.
    pub key_len: u8,
}

impl Header {
    /// Writes the header into the first 128 bytes of a page.
    pub fn write(self, page: &mut [u8; PAGE_SIZE])
        ensures { page.new ≡ header_bytes self ++ drop 128 page.old }
    {
        page[..HEADER_SIZE].copy_from_slice(&[0; HEADER_SIZE]);
        page[0] = self.kind.number();
        set_u16(page, 2, self.file);
        set_u16(page, 4, self.index);
        set_u16(page, 6, self.count);
        set_u64(page, POSITION, self.position);
        set_u64(page, 16, self.right);
        page[24] = self.key_len;
    }
}

/// Sets the position of a page. A header in the grammar stays in it, but that of a page that was not
/// written yet: there any position but 0 leaves the grammar.
pub fn set_position(page: &mut [u8; PAGE_SIZE], position: u64)
    ensures { page.new ≡ with_position position page.old }
{
    set_u64(page, POSITION, position);
}
