//! The records of a file by number, and the room that the records of one block share.
//! The rules stand in `specs/Room.antt` of the definitions.

ghost use Rattle.std.specs.Prelude.{◌≡◌, ◌<◌, ◌≤◌, ℕ, ◌-◌, ◌^◌, sum_by, min, not, ◌&&◌, ◌==◌, length, nat_le, if◌then◌else◌, is_none, true, false, IfSome, IfNone};
ghost use Rattle.ct_definitions.specs.Room.{has_fitting_len, row_at, block_of, use_of, block_use, use_beside, has_room};
ghost use Rattle.ct_definitions.specs.Reached.{rise_above};
ghost use Rattle.std.specs.List.{list_all};
ghost use Rattle.ct_model.specs.Free.{IsFree, IsNotFree, AreFull};

use crate::rows::{has_few, rows_in};
use ct_definitions::{BLOCK_ROOM, Kind, LONGEST_IMAGE, RECORD_OVERHEAD, RECORDS_PER_BLOCK, Row};

// how many blocks the numbers below 2^64 are in
const BLOCKS: u64 = 1 << 57;

// how long an image is at most of which a block has room for more than it has numbers
const SHORT_IMAGE: usize = 22;

/// Whether an image of `len` bytes may stand in a file of the kind.
pub fn has_fitting_len(kind: Kind, len: usize) -> bool
    ensures { result ≡ has_fitting_len kind len }
{
    match kind {
        Kind::Fixed(fixed) => len == fixed as usize,
        Kind::Variable { min, max } => min as usize <= len && len <= max as usize,
    }
}

fn is_beside(num: u64, row: &Row) -> bool
    ensures { result ≡ (block_of row.now.num == block_of num && not (row.now.num == num)) }
{
    row.num / RECORDS_PER_BLOCK == num / RECORDS_PER_BLOCK && row.num != num
}

// what an image uses of its block's room, in bytes, or 2^64 - 1 where that is more
fn use_of(image: &[u8]) -> u64
    ensures { result ≡ min (use_of image.now) (2 ^ 64 - 1) }
{
    (image.len() as u64).saturating_add(RECORD_OVERHEAD)
}

// what the other records of the number's block use, or 2^64 - 1 where that is more
fn used_beside(num: u64, rows: &[Row]) -> u64
    requires { rise_above 0 rows.now ≡ true }
    ensures { result ≡ min (sum_by (use_beside num) rows.now) (2 ^ 64 - 1) }
{
    let beside = rows_in(num / RECORDS_PER_BLOCK, rows);
    let mut used: u64 = 0;
    for row in beside {
        if is_beside(num, row) {
            used = used.saturating_add(use_of(row.image.as_slice()));
        }
    }
    used
}

/// Whether the block of the number has room for the image beside the other records.
pub fn has_room(num: u64, image: &[u8], rows: &[Row]) -> bool
    requires { rise_above 0 rows.now ≡ true }
    ensures { result ≡ has_room num image.now rows.now }
{
    use_of(image).saturating_add(used_beside(num, rows)) <= BLOCK_ROOM
}

/// `has_room` in a file with no image of more than `longest` bytes. What the records use is added up only
/// where there may be too many of them, and short images always have room.
pub(crate) fn has_room_beside(num: u64, image: &[u8], longest: usize, rows: &[Row]) -> bool
    requires rising { rise_above 0 rows.now ≡ true }
    requires short { longest ≤ LONGEST_IMAGE }
    requires own { length image.now ≤ longest }
    requires others { list_all (λ row. nat_le (length row.image) longest) rows.now ≡ true }
    ensures { result ≡ has_room num image.now rows.now }
{
    if longest <= SHORT_IMAGE {
        return true;
    }
    let most = BLOCK_ROOM / (longest as u64 + RECORD_OVERHEAD) - 1;
    if has_few(num / RECORDS_PER_BLOCK, most as usize, rows) {
        return true;
    }
    has_room(num, image, rows)
}

// what the records of one block use, or 2^64 - 1 where that is more
fn used_by(rows: &[Row]) -> u64
    ensures { result ≡ min (sum_by (λ row. use_of row.image) rows.now) (2 ^ 64 - 1) }
{
    let mut used: u64 = 0;
    for row in rows {
        used = used.saturating_add(use_of(row.image.as_slice()));
    }
    used
}

// the place of the first number from 1 on in a block
fn first_place(block: u64) -> u64
    ensures { result ≡ (if block == 0 then 1 else 0) }
{
    if block == 0 { 1 } else { 0 }
}

// the lowest number from 1 on in a block that none of the block's records has
fn lowest_unused(block: u64, rows: &[Row]) -> Option<u64>
    requires block { block < 2 ^ 57 }
    requires rows { list_all (λ row. block_of row.num == block) rows.now ≡ true }
    requires rising { rise_above 0 rows.now ≡ true }
    ensures found { IfSome result (λ num. (1 ≤ num) × (block_of num ≡ block) × (is_none (row_at num rows.now) ≡ true)) }
    ensures lowest { IfSome result (λ num. (lower : ℕ) → 1 ≤ lower → lower < num → block_of lower ≡ block → is_none (row_at lower rows.now) ≡ false) }
    ensures none { IfNone result ((num : ℕ) → 1 ≤ num → block_of num ≡ block → is_none (row_at num rows.now) ≡ false) }
{
    let start = block * RECORDS_PER_BLOCK;
    let mut place = first_place(block);
    for row in rows {
        if row.num != start + place {
            return Some(start + place);
        }
        place += 1;
    }
    if place < RECORDS_PER_BLOCK {
        Some(start + place)
    } else {
        None
    }
}

// the lowest number from 1 on in a block that is free for images of `len` bytes
fn lowest_free_in(block: u64, len: usize, rows: &[Row]) -> Option<u64>
    requires block { block < 2 ^ 57 }
    requires len { len ≤ LONGEST_IMAGE }
    requires rising { rise_above 0 rows.now ≡ true }
    ensures found { IfSome result (λ num. (1 ≤ num) × (block_of num ≡ block) × IsFree num len rows.now) }
    ensures lowest { IfSome result (λ num. (lower : ℕ) → 1 ≤ lower → lower < num → block_of lower ≡ block → IsNotFree lower len rows.now) }
    ensures none { IfNone result ((num : ℕ) → 1 ≤ num → block_of num ≡ block → IsNotFree num len rows.now) }
{
    let own = rows_in(block, rows);
    if used_by(own) > BLOCK_ROOM - RECORD_OVERHEAD - len as u64 {
        return None;
    }
    lowest_unused(block, own)
}

// the first block from one on that has a free number for images of `len` bytes, or 2^57
fn first_open(from: u64, len: usize, rows: &[Row]) -> u64
    requires from { from ≤ 2 ^ 57 }
    requires len { len ≤ LONGEST_IMAGE }
    requires rising { rise_above 0 rows.now ≡ true }
    requires full { AreFull from len rows.now }
    ensures bound { result ≤ 2 ^ 57 }
    ensures full { AreFull result len rows.now }
{
    for block in from..BLOCKS {
        if lowest_free_in(block, len, rows).is_some() {
            return block;
        }
    }
    BLOCKS
}

/// A block from one on, where a record of the number has just been put among the others. It stays as long as
/// records are put into that very block.
pub(crate) fn open_after(from: u64, num: u64, len: usize, rows: &[Row]) -> u64
    requires from { from ≤ 2 ^ 57 }
    requires len { len ≤ LONGEST_IMAGE }
    requires rising { rise_above 0 rows.now ≡ true }
    requires full { AreFull from len rows.now }
    ensures bound { result ≤ 2 ^ 57 }
    ensures full { AreFull result len rows.now }
{
    if num / RECORDS_PER_BLOCK == from {
        return from;
    }
    first_open(from, len, rows)
}

/// The lowest number, from 1 on, that is free for images of `len` bytes, where none is in a block
/// below `from`.
pub(crate) fn lowest_free_from(from: u64, len: usize, rows: &[Row]) -> Option<u64>
    requires from { from ≤ 2 ^ 57 }
    requires len { len ≤ LONGEST_IMAGE }
    requires rising { rise_above 0 rows.now ≡ true }
    requires full { AreFull from len rows.now }
    ensures found { IfSome result (λ num. (1 ≤ num) × IsFree num len rows.now) }
    ensures lowest { IfSome result (λ num. (lower : ℕ) → 1 ≤ lower → lower < num → IsNotFree lower len rows.now) }
    ensures none { IfNone result ((num : ℕ) → 1 ≤ num → num < 2 ^ 64 → IsNotFree num len rows.now) }
{
    for block in from..BLOCKS {
        if let Some(num) = lowest_free_in(block, len, rows) {
            return Some(num);
        }
    }
    None
}
