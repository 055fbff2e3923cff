//! Whether a page is in the grammar of record pages.

ghost use Rattle.std.specs.Prelude.{◌≡◌, ◌≢◌, ◌≤◌, ◌+◌, IfSome};
ghost use Rattle.std.specs.Bool.{OnTrue, OnFalse};
ghost use Rattle.ct_slots.specs.Pages.{IsRecordPage, RecordPage, Fits, page_of};
ghost use Rattle.ct_slots.specs.Checks.{images_begin, is_entry, has_record_header};

use crate::find::{ENTRY_SIZE, MOST_ENTRIES, count_of};
use ct_definitions::RECORDS_PER_BLOCK;
use ct_page::{HEADER_SIZE, NO_INDEX, PAGE_SIZE, Page, PageKind, are_zero, u16_at};

/// Whether a page is a record page: its header's, its entries by rising number, its images packed at the
/// end in that order, the first one last, and zeros between entries and images.
pub(crate) fn is_record_page(page: &[u8; PAGE_SIZE]) -> bool
    ensures page { OnTrue result (IsRecordPage page.now) }
    ensures none { OnFalse result ((shown : RecordPage) → Fits shown → page.now ≢ page_of shown) }
{
    if !has_record_header(page) {
        return false;
    }
    let count = count_of(page);
    if count > MOST_ENTRIES {
        return false;
    }
    let entries_end = HEADER_SIZE + ENTRY_SIZE * count;
    match images_begin(page, count) {
        None => false,
        Some(start) => entries_end <= start && are_zero(&page[entries_end..start]),
    }
}

/// Whether the header is that of a record page.
fn has_record_header(page: &[u8; PAGE_SIZE]) -> bool
    ensures { result ≡ has_record_header page.now }
{
    match Page::read(page) {
        None => false,
        Some(view) => {
            view.kind == PageKind::Records.number()
                && view.index == NO_INDEX
                && view.right == 0
                && view.key_len == 0
        }
    }
}

/// Where the images begin, or `None` where an entry is not in order behind those before it.
fn images_begin(page: &[u8; PAGE_SIZE], count: usize) -> Option<usize>
    requires { count ≤ 496 }
    ensures begin { result ≡ images_begin count 128 0 4096 page.now }
    ensures within { IfSome result (λ start. start ≤ 4096) }
{
    let mut low = 0;
    let mut end = PAGE_SIZE;
    for place in 0..count {
        let at = HEADER_SIZE + ENTRY_SIZE * place;
        if !is_entry(page, at, low, end) {
            return None;
        }
        low = u16_at(page, at) as usize + 1;
        end = u16_at(page, at + 2) as usize;
    }
    Some(end)
}

/// Whether the entry at a place is in order: its number, where its image ends, and its zeros.
fn is_entry(page: &[u8; PAGE_SIZE], at: usize, low: usize, end: usize) -> bool
    requires { at + 8 ≤ 4096 }
    ensures { result ≡ is_entry at low end page.now }
{
    let num = u16_at(page, at) as usize;
    let offset = u16_at(page, at + 2) as usize;
    let len = u16_at(page, at + 4) as usize;
    low <= num
        && num < RECORDS_PER_BLOCK as usize
        && offset + len == end
        && u16_at(page, at + 6) == 0
}
