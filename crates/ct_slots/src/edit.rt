//! Edits of a record page: one record put in, replaced or taken out.

ghost use Rattle.std.specs.Prelude.{◌≡◌, ◌<◌, ◌≤◌, ◌+◌, ◌*◌, ◌++◌, ◌∷◌, length, suc, take, drop};
ghost use Rattle.std.specs.List.{remove};
ghost use Rattle.ct_definitions.specs.Changes.{without_row, with_row};
ghost use Rattle.ct_definitions.specs.Room.{use_of};
ghost use Rattle.ct_slots.specs.Pages.{IsRecordPage, shown_on, rows_on, page_of, with_rows, with_slot, rows_use};
ghost use Rattle.ct_page.specs.Fields.{u16_at};
ghost use Rattle.ct_slots.specs.Checks.{IsPlace, AllFrom};

use crate::find::{ENTRY_SIZE, count_of, end_of, is_at, len_at, place_of};
use crate::moves::{close_entry, close_image, exchange_image, open_entry, open_image, pack};
use ct_page::{HEADER_SIZE, PAGE_SIZE, set_u16};

/// Puts an image under a number, in place of the one that is there.
pub(crate) fn set(page: &mut [u8; PAGE_SIZE], num: u16, image: &[u8])
    requires page { IsRecordPage page.old }
    requires num { num < 128 }
    requires room { use_of image.now + rows_use (without_row num (rows_on page.old)) ≤ 3968 }
    ensures page { IsRecordPage page.new }
    ensures shown { shown_on page.new ≡ with_rows (with_slot num image.now (rows_on page.old)) (shown_on page.old) }
{
    let place = place_of(page, num);
    if is_at(page, place, num) {
        replace(page, place, num, image);
    } else {
        put_in(page, place, num, image);
    }
}

/// Puts an image in the place of the one of the record at a place, which has this number.
fn replace(page: &mut [u8; PAGE_SIZE], place: usize, num: u16, image: &[u8])
    requires page { IsRecordPage page.old }
    requires place { place < length (rows_on page.old) }
    requires num { u16_at (128 + 8 * place) page.old ≡ num }
    requires room { use_of image.now + rows_use (take place (rows_on page.old) ++ drop (suc place) (rows_on page.old)) ≤ 3968 }
    ensures page { IsRecordPage page.new }
    ensures shown { shown_on page.new ≡ with_rows (take place (rows_on page.old) ++ record { num = num; image = image.now } ∷ drop (suc place) (rows_on page.old)) (shown_on page.old) }
{
    let count = count_of(page);
    let end = end_of(page, place);
    let low = end_of(page, count);
    let entry = HEADER_SIZE + ENTRY_SIZE * place;
    let len = len_at(page, place);
    exchange_image(page, low, end, len, image);
    set_u16(page, entry + 4, image.len() as u16);
    pack(page, entry, count - place, end);
}

/// Takes the record of a number out, where there is one.
pub(crate) fn clear(page: &mut [u8; PAGE_SIZE], num: u16)
    requires { IsRecordPage page.old }
    ensures page { IsRecordPage page.new }
    ensures shown { shown_on page.new ≡ with_rows (without_row num (rows_on page.old)) (shown_on page.old) }
{
    let place = place_of(page, num);
    if is_at(page, place, num) {
        take_out(page, place);
    }
}

/// Puts a record in at the place of its number.
fn put_in(page: &mut [u8; PAGE_SIZE], place: usize, num: u16, image: &[u8])
    requires page { IsRecordPage page.old }
    requires num { num < 128 }
    requires place { IsPlace num place (rows_on page.old) }
    requires new { AllFrom (num + 1) (drop place (rows_on page.old)) }
    requires room { use_of image.now + rows_use (rows_on page.old) ≤ 3968 }
    ensures page { IsRecordPage page.new }
    ensures shown { shown_on page.new ≡ with_rows (take place (rows_on page.old) ++ record { num = num; image = image.now } ∷ drop place (rows_on page.old)) (shown_on page.old) }
{
    let count = count_of(page);
    let end = end_of(page, place);
    let low = end_of(page, count);
    let entry = HEADER_SIZE + ENTRY_SIZE * place;
    open_image(page, low, end, image);
    open_entry(
        page,
        entry,
        HEADER_SIZE + ENTRY_SIZE * count,
        num,
        image.len() as u16,
    );
    pack(page, entry, count + 1 - place, end);
    set_u16(page, 6, count as u16 + 1);
}

/// Takes the record at a place out.
fn take_out(page: &mut [u8; PAGE_SIZE], place: usize)
    requires page { IsRecordPage page.old }
    requires place { place < length (rows_on page.old) }
    ensures page { IsRecordPage page.new }
    ensures shown { shown_on page.new ≡ with_rows (remove (rows_on page.old) place) (shown_on page.old) }
{
    let count = count_of(page);
    let end = end_of(page, place);
    let low = end_of(page, count);
    let entry = HEADER_SIZE + ENTRY_SIZE * place;
    let len = len_at(page, place);
    close_image(page, low, end, len);
    close_entry(page, entry, HEADER_SIZE + ENTRY_SIZE * count);
    pack(page, entry, count - place - 1, end);
    set_u16(page, 6, count as u16 - 1);
}
