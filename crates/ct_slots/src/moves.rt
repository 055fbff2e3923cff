//! Bytes moved within a page: a gap opened in it for an image or an entry, and closed again.

ghost use Rattle.std.specs.Prelude.{◌≡◌, ◌≤◌, ◌+◌, ◌-◌, ◌*◌, ◌++◌, length, take, drop, replicate};
ghost use Rattle.ct_page.specs.Fields.{with_bytes};
ghost use Rattle.ct_slots.specs.Pages.{entry_bytes};
ghost use Rattle.ct_slots.specs.Checks.{packed};

use crate::find::ENTRY_SIZE;
use ct_page::{PAGE_SIZE, set_u16, u16_at};

/// Puts an image in front of `end`: what stands from `low` to there moves down by the image's length.
pub(crate) fn open_image(page: &mut [u8; PAGE_SIZE], low: usize, end: usize, image: &[u8])
    requires order { low ≤ end }
    requires within { end ≤ 4096 }
    requires room { length image.now ≤ low }
    ensures { page.new ≡ take (low - length image.now) page.old ++ take (end - low) (drop low page.old) ++ image.now ++ drop end page.old }
{
    page.copy_within(low..end, low - image.len());
    page[end - image.len()..end].copy_from_slice(image);
}

/// Takes the `len` bytes in front of `end` out: what stands from `low` to them moves up, and zeros follow it.
pub(crate) fn close_image(page: &mut [u8; PAGE_SIZE], low: usize, end: usize, len: usize)
    requires order { low + len ≤ end }
    requires within { end ≤ 4096 }
    ensures { page.new ≡ take low page.old ++ replicate len 0 ++ take (end - len - low) (drop low page.old) ++ drop end page.old }
{
    page.copy_within(low..end - len, low + len);
    page[low..low + len].fill(0);
}

/// Puts an image in the place of the `len` bytes in front of `end`: what stands from `low` to them moves by
/// the difference, and zeros take the place of what is not used any more.
pub(crate) fn exchange_image(
    page: &mut [u8; PAGE_SIZE],
    low: usize,
    end: usize,
    len: usize,
    image: &[u8],
)
    requires order { low + len ≤ end }
    requires within { end ≤ 4096 }
    requires room { length image.now ≤ low + len }
    ensures { page.new ≡ take (low - (length image.now - len)) page.old ++ replicate (len - length image.now) 0 ++ take (end - len - low) (drop low page.old) ++ image.now ++ drop end page.old }
{
    slide(page, low, end - len, low + len - image.len());
    page[end - image.len()..end].copy_from_slice(image);
}

/// Moves what stands from `low` to `end` to the place `to`, and puts zeros in front of it where it moves up.
fn slide(page: &mut [u8; PAGE_SIZE], low: usize, end: usize, to: usize)
    requires order { low ≤ end }
    requires within { to + (end - low) ≤ 4096 }
    requires end { end ≤ 4096 }
    ensures { page.new ≡ take (low - (low - to)) page.old ++ replicate (to - low) 0 ++ take (end - low) (drop low page.old) ++ drop (to + (end - low)) page.old }
{
    if to == low {
        return;
    }
    if to < low {
        page.copy_within(low..end, to);
        return;
    }
    page.copy_within(low..end, to);
    page[low..to].fill(0);
}

/// Puts an entry at a place, with offset 0: what stands from there to `end` moves up by an entry.
pub(crate) fn open_entry(page: &mut [u8; PAGE_SIZE], at: usize, end: usize, num: u16, len: u16)
    requires order { at ≤ end }
    requires within { end + 8 ≤ 4096 }
    ensures { page.new ≡ take at page.old ++ entry_bytes num 0 len ++ take (end - at) (drop at page.old) ++ drop (end + 8) page.old }
{
    page.copy_within(at..end, at + ENTRY_SIZE);
    write_entry(page, at, num, len);
}

/// Writes an entry at a place, with offset 0.
fn write_entry(page: &mut [u8; PAGE_SIZE], at: usize, num: u16, len: u16)
    requires { at + 8 ≤ 4096 }
    ensures { page.new ≡ with_bytes at (entry_bytes num 0 len) page.old }
{
    let num = num.to_le_bytes();
    let len = len.to_le_bytes();
    let entry = [num[0], num[1], 0, 0, len[0], len[1], 0, 0];
    page[at..at + ENTRY_SIZE].copy_from_slice(&entry);
}

/// Takes the entry at a place out: what stands behind it up to `end` moves down, and zeros follow it.
pub(crate) fn close_entry(page: &mut [u8; PAGE_SIZE], at: usize, end: usize)
    requires order { at + 8 ≤ end }
    requires within { end ≤ 4096 }
    ensures { page.new ≡ take at page.old ++ take (end - at - 8) (drop (at + 8) page.old) ++ replicate 8 0 ++ drop end page.old }
{
    page.copy_within(at + ENTRY_SIZE..end, at);
    page[end - ENTRY_SIZE..end].fill(0);
}

/// Writes the offsets of so many entries anew, so that the first image ends at `end` and each further one
/// where the one before it begins.
pub(crate) fn pack(page: &mut [u8; PAGE_SIZE], at: usize, count: usize, end: usize)
    requires within { at + 8 * count ≤ 4096 }
    requires end { end ≤ 4096 }
    ensures { page.new ≡ take at page.old ++ packed end count (drop at page.old) ++ drop (at + 8 * count) page.old }
{
    let mut image_end = end;
    for place in 0..count {
        let entry = at + ENTRY_SIZE * place;
        // The images fit in front of `end`, so this does not saturate.
        image_end = image_end.saturating_sub(u16_at(page, entry + 4) as usize);
        set_u16(page, entry + 2, image_end as u16);
    }
}
