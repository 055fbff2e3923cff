//! Whether a page is a directory, a definition page or a map page, by its bytes alone. No test takes
//! memory.

ghost use Rattle.std.specs.Prelude.{◌≡◌, ◌≤◌};
ghost use Rattle.ct_page.specs.Kinds.{number_of};
ghost use Rattle.ct_dir.specs.Grammar.{has_kind, has_no_index, has_no_file, ends_at, is_directory_page, is_definition_page, is_map_page};

use crate::directory::{MOST_FILES, file_count};
use crate::map::{MOST_BLOCKS, entry_count};
use ct_page::{
    HEADER_SIZE, NO_FILE, NO_INDEX, PAGE_SIZE, PageKind, are_zero, has_header, u16_at, u64_at,
};

/// Whether the header is in the grammar and says this kind.
fn has_kind(page: &[u8; PAGE_SIZE], kind: PageKind) -> bool
    ensures { result ≡ has_kind (number_of kind) page.now }
{
    has_header(page) && page[0] == kind.number()
}

/// Whether the page has neither an index nor a length of keys.
fn has_no_index(page: &[u8; PAGE_SIZE]) -> bool
    ensures { result ≡ has_no_index page.now }
{
    u16_at(page, 4) == NO_INDEX && page[24] == 0
}

/// Whether the page has neither a file nor a right link.
fn has_no_file(page: &[u8; PAGE_SIZE]) -> bool
    ensures { result ≡ has_no_file page.now }
{
    u16_at(page, 2) == NO_FILE && u64_at(page, 16) == 0
}

/// Whether all bytes from a place within the page on are zero.
fn ends_at(page: &[u8; PAGE_SIZE], place: usize) -> bool
    ensures { result ≡ ends_at place page.now }
{
    place <= PAGE_SIZE && are_zero(&page[place..])
}

/// Whether a page is a directory: of no file, with 256 files at most, and zeros behind them.
pub fn is_directory_page(page: &[u8; PAGE_SIZE]) -> bool
    ensures { result ≡ is_directory_page page.now }
{
    let count = file_count(page) as usize;
    has_kind(page, PageKind::Directory)
        && has_no_index(page)
        && has_no_file(page)
        && count <= MOST_FILES
        && ends_at(page, HEADER_SIZE + 8 + 8 * count)
}

/// Whether a page is the definition page of a file, whose definition has `len` bytes: it has no right
/// link, and zeros behind its indexes.
pub fn is_definition_page(page: &[u8; PAGE_SIZE], len: usize) -> bool
    requires { len ≤ 4096 }
    ensures { result ≡ is_definition_page len page.now }
{
    let count = u16_at(page, 6) as usize;
    has_kind(page, PageKind::Definition)
        && has_no_index(page)
        && u64_at(page, 16) == 0
        && ends_at(page, HEADER_SIZE + 8 + len + 16 * count)
}

/// Whether a page is a map page: 396 entries at most, and zeros behind them.
pub fn is_map_page(page: &[u8; PAGE_SIZE]) -> bool
    ensures { result ≡ is_map_page page.now }
{
    let count = entry_count(page) as usize;
    has_kind(page, PageKind::SpaceMap)
        && has_no_index(page)
        && count <= MOST_BLOCKS
        && ends_at(page, HEADER_SIZE + 10 * count)
}
