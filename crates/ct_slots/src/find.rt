//! Where a number's entry and its image stand on a record page.

ghost use Rattle.std.specs.Prelude.{◌≡◌, ◌<◌, ◌≤◌, ◌+◌, ◌*◌, ◌-◌, ◌==◌, ◌&&◌, length, take, drop, slice_get, IfSome, IsTrue, nat_lt, Some};
ghost use Rattle.ct_definitions.specs.Room.{image_at};
ghost use Rattle.ct_page.specs.Fields.{u16_at};
ghost use Rattle.ct_slots.specs.Pages.{IsRecordPage, rows_on, images_len, rows_use};
ghost use Rattle.ct_slots.specs.Checks.{IsPlace};

use ct_page::{HEADER_SIZE, PAGE_SIZE, u16_at};

/// How many bytes an entry has.
pub(crate) const ENTRY_SIZE: usize = 8;

/// How many entries a page has room for, if their images were empty.
pub(crate) const MOST_ENTRIES: usize = 496;

/// How many records the page has.
pub(crate) fn count_of(page: &[u8; PAGE_SIZE]) -> usize
    ensures { result ≡ length (rows_on page.now) }
{
    u16_at(page, 6) as usize
}

/// The number of an entry.
fn num_at(page: &[u8; PAGE_SIZE], place: usize) -> u16
    requires { place < 496 }
    ensures { result ≡ u16_at (128 + 8 * place) page.now }
{
    u16_at(page, HEADER_SIZE + ENTRY_SIZE * place)
}

/// The offset in an entry.
fn offset_at(page: &[u8; PAGE_SIZE], place: usize) -> usize
    requires { place < 496 }
    ensures { result ≡ u16_at (128 + 8 * place + 2) page.now }
{
    u16_at(page, HEADER_SIZE + ENTRY_SIZE * place + 2) as usize
}

/// The length in an entry.
pub(crate) fn len_at(page: &[u8; PAGE_SIZE], place: usize) -> usize
    requires { place < 496 }
    ensures { result ≡ u16_at (128 + 8 * place + 4) page.now }
{
    u16_at(page, HEADER_SIZE + ENTRY_SIZE * place + 4) as usize
}

/// The place of a number: how many of the records have lesser ones.
pub(crate) fn place_of(page: &[u8; PAGE_SIZE], num: u16) -> usize
    requires { IsRecordPage page.now }
    ensures { IsPlace num result (rows_on page.now) }
{
    let mut low = 0;
    let mut high = count_of(page);
    while low < high {
        let middle = (low + high) / 2;
        if num_at(page, middle) < num {
            low = middle + 1;
        } else {
            high = middle;
        }
    }
    low
}

/// Whether the record at a place has this number.
pub(crate) fn is_at(page: &[u8; PAGE_SIZE], place: usize, num: u16) -> bool
    requires { IsRecordPage page.now }
    ensures { result ≡ (nat_lt place (length (rows_on page.now)) && u16_at (128 + 8 * place) page.now == num) }
{
    place < count_of(page) && num_at(page, place) == num
}

/// The image of the record at a place.
pub(crate) fn image_of(page: &[u8; PAGE_SIZE], place: usize) -> &[u8]
    requires page { IsRecordPage page.now }
    requires within { place < length (rows_on page.now) }
    ensures { IfSome (slice_get (rows_on page.now) place) (λ row. result.now ≡ row.image) }
{
    let offset = offset_at(page, place);
    let len = len_at(page, place);
    part(page, offset, len)
}

/// So many bytes from a place on.
fn part(page: &[u8; PAGE_SIZE], offset: usize, len: usize) -> &[u8]
    requires { offset + len ≤ 4096 }
    ensures { result.now ≡ take len (drop offset page.now) }
{
    &page[offset..offset + len]
}

/// Where the images of the records in front of a place begin, which is where the image at it ends.
pub(crate) fn end_of(page: &[u8; PAGE_SIZE], place: usize) -> usize
    requires page { IsRecordPage page.now }
    requires within { place ≤ length (rows_on page.now) }
    ensures { result ≡ 4096 - images_len (take place (rows_on page.now)) }
{
    if place == 0 {
        return PAGE_SIZE;
    }
    offset_at(page, place - 1)
}

/// How many bytes stand between the entries and the images.
pub(crate) fn room(page: &[u8; PAGE_SIZE]) -> usize
    requires { IsRecordPage page.now }
    ensures { result ≡ 3968 - rows_use (rows_on page.now) }
{
    let count = count_of(page);
    end_of(page, count) - (HEADER_SIZE + ENTRY_SIZE * count)
}
