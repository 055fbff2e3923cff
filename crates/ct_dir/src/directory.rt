//! The directory, page 0: how many pages there are, and the definition page of each file.

ghost use Rattle.std.specs.Prelude.{◌≡◌, ◌<◌, ◌≤◌, ◌+◌, Some};
ghost use Rattle.ct_dir.specs.Directory.{page_count, file_count, file_page, file_place, with_page_count, with_file};

use ct_page::{HEADER_SIZE, PAGE_SIZE, set_u16, set_u64, u16_at, u64_at};

/// How many files a directory has at most.
pub const MOST_FILES: usize = 256;

/// Where the count of entries stands in a header.
const COUNT: usize = 6;

/// Where the count of pages stands.
const PAGE_COUNT: usize = HEADER_SIZE;

/// Where the definition page of the first file stands.
const FILES: usize = HEADER_SIZE + 8;

/// How many pages the store has.
pub fn page_count(page: &[u8; PAGE_SIZE]) -> u64
    ensures { result ≡ page_count page.now }
{
    u64_at(page, PAGE_COUNT)
}

/// Sets how many pages the store has.
pub fn set_page_count(page: &mut [u8; PAGE_SIZE], count: u64)
    ensures page { page.new ≡ with_page_count count page.old }
    ensures count { page_count page.new ≡ count }
{
    set_u64(page, PAGE_COUNT, count);
}

/// How many files the directory has.
pub fn file_count(page: &[u8; PAGE_SIZE]) -> u16
    ensures { result ≡ file_count page.now }
{
    u16_at(page, COUNT)
}

/// The definition page of a file, or `None` where the directory has no such file.
pub fn file_page(page: &[u8; PAGE_SIZE], file: u16) -> Option<u64>
    requires { file_count page.now ≤ 256 }
    ensures { result ≡ file_page page.now file }
{
    if file >= file_count(page) {
        return None;
    }
    Some(u64_at(page, FILES + 8 * file as usize))
}

/// Adds a file, whose definition page this is. It gets the next number.
pub fn add_file(page: &mut [u8; PAGE_SIZE], definition: u64)
    requires { file_count page.old < 256 }
    ensures page { page.new ≡ with_file definition page.old }
    ensures count { file_count page.new ≡ file_count page.old + 1 }
    ensures file { file_page page.new (file_count page.old) ≡ Some definition }
{
    let file = file_count(page);
    set_u64(page, FILES + 8 * file as usize, definition);
    set_u16(page, COUNT, file + 1);
}
