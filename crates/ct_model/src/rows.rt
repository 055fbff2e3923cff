//! The records of a file, whose numbers rise: finding them by number and by block, and putting one
//! in, exchanging and taking out. Each is found by halves, and each edit is one of the definitions.

ghost use Rattle.std.specs.Prelude.{◌≡◌, ◌==◌, ◌≤◌, length, nat_lt, nat_le, filter, slice_get, true, Some, None, IfErr, OnOk, OnErr};
ghost use Rattle.std.specs.Option.{option_copied, is_some};
ghost use Rattle.std.specs.List.{prefix_len};
ghost use Rattle.ct_definitions.specs.Room.{row_at, image_at, is_image, block_of};
ghost use Rattle.ct_definitions.specs.Changes.{with_row, with_image, without_row};
ghost use Rattle.ct_definitions.specs.Reached.{rise_above};
ghost use Rattle.ct_model.specs.Stored.{own};

use ct_definitions::{Bytes, RECORDS_PER_BLOCK, Row, Rows};
use std::alloc::Global;
use std::mem;

// whether each record has a lower number, which the last one tells
fn are_below(num: u64, rows: &[Row]) -> bool
    requires { rise_above 0 rows.now ≡ true }
    ensures { result ≡ (prefix_len (λ row. nat_lt row.num num) rows.now == length rows.now) }
{
    match rows.last() {
        Some(last) => last.num < num,
        None => true,
    }
}

// how many records have lower numbers
fn place_of(num: u64, rows: &[Row]) -> usize
    requires { rise_above 0 rows.now ≡ true }
    ensures value { result ≡ prefix_len (λ row. nat_lt row.num num) rows.now }
    ensures bound { result ≤ length rows.now }
{
    if are_below(num, rows) {
        return rows.len();
    }
    rows.partition_point(
        |row: &Row| -> bool
            ensures { result ≡ nat_lt row.now.num num }
        { row.num < num },
    )
}

// the record at the place
fn row_there(place: usize, rows: &[Row]) -> Option<&Row>
    ensures { option_copied result ≡ slice_get rows.now place }
{
    rows.get(place)
}

/// The record of the number.
pub fn row_at(num: u64, rows: &[Row]) -> Option<&Row>
    requires { rise_above 0 rows.now ≡ true }
    ensures { option_copied result ≡ row_at num rows.now }
{
    match row_there(place_of(num, rows), rows) {
        Some(row) if row.num == num => Some(row),
        _ => None,
    }
}

/// The image of the record of the number.
pub fn image_at(num: u64, rows: &[Row]) -> Option<&[u8]>
    requires { rise_above 0 rows.now ≡ true }
    ensures { option_copied result ≡ image_at num rows.now }
{
    match row_at(num, rows) {
        Some(row) => Some(row.image.as_slice()),
        None => None,
    }
}

/// Whether the record of the number has the image.
pub fn has_image(num: u64, image: &[u8], rows: &[Row]) -> bool
    requires { rise_above 0 rows.now ≡ true }
    ensures { result ≡ is_image image.now (image_at num rows.now) }
{
    match image_at(num, rows) {
        Some(found) => found == image,
        None => false,
    }
}

// how many records stand in lower blocks
fn start_of(block: u64, rows: &[Row]) -> usize
    requires { rise_above 0 rows.now ≡ true }
    ensures value { result ≡ prefix_len (λ row. nat_lt (block_of row.num) block) rows.now }
    ensures bound { result ≤ length rows.now }
{
    rows.partition_point(
        |row: &Row| -> bool
            ensures { result ≡ nat_lt (block_of row.now.num) block }
        { row.num / RECORDS_PER_BLOCK < block },
    )
}

// whether each record stands in the block or a lower one, which the last one tells
fn are_up_to(block: u64, rows: &[Row]) -> bool
    requires { rise_above 0 rows.now ≡ true }
    ensures { result ≡ (prefix_len (λ row. nat_le (block_of row.num) block) rows.now == length rows.now) }
{
    match rows.last() {
        Some(last) => last.num / RECORDS_PER_BLOCK <= block,
        None => true,
    }
}

// how many records stand in the block or lower ones
fn end_of(block: u64, rows: &[Row]) -> usize
    requires { rise_above 0 rows.now ≡ true }
    ensures value { result ≡ prefix_len (λ row. nat_le (block_of row.num) block) rows.now }
    ensures start { prefix_len (λ row. nat_lt (block_of row.num) block) rows.now ≤ result }
    ensures bound { result ≤ length rows.now }
{
    if are_up_to(block, rows) {
        return rows.len();
    }
    rows.partition_point(
        |row: &Row| -> bool
            ensures { result ≡ nat_le (block_of row.now.num) block }
        { row.num / RECORDS_PER_BLOCK <= block },
    )
}

/// The records of the block.
pub(crate) fn rows_in(block: u64, rows: &[Row]) -> &[Row]
    requires { rise_above 0 rows.now ≡ true }
    ensures { result.now ≡ filter (λ row. block_of row.num == block) rows.now }
{
    let start = start_of(block, rows);
    let end = end_of(block, rows);
    &rows[start..end]
}

/// Whether the block has at most `most` records, which one of them tells.
pub(crate) fn has_few(block: u64, most: usize, rows: &[Row]) -> bool
    requires { rise_above 0 rows.now ≡ true }
    ensures { result ≡ nat_le (length (filter (λ row. block_of row.num == block) rows.now)) most }
{
    let end = end_of(block, rows);
    if end <= most {
        return true;
    }
    rows[end - most - 1].num / RECORDS_PER_BLOCK < block
}

// whether the record of the number stands at the place
fn stands_at(place: usize, num: u64, rows: &[Row]) -> bool
    ensures { result ≡ is_some (own num (slice_get rows.now place)) }
{
    match row_there(place, rows) {
        Some(row) => row.num == num,
        None => false,
    }
}

/// Puts a record of a number that none has at its place. Where there is no memory it comes back.
pub(crate) fn put_row(alloc: Global, rows: &mut Rows, row: Row) -> Result<(), Row>
    requires rising { rise_above 0 rows.old ≡ true }
    requires free { row_at row.num rows.old ≡ None }
    ensures ok { OnOk result (rows.new ≡ with_row row rows.old) }
    ensures err { OnErr result (rows.new ≡ rows.old) }
    ensures back { IfErr result (λ back. back ≡ row) }
{
    let place = place_of(row.num, rows.as_slice());
    let mut items = mem::replace(rows, Rows::new(alloc)).into_vec();
    let answer = items.insert(place, row);
    *rows = Rows::from_vec(items);
    match answer {
        Ok(()) => Ok(()),
        Err(refused) => Err(refused.value),
    }
}

/// Gives the record of the number another image.
pub(crate) fn put_image(rows: &mut Rows, num: u64, image: Bytes)
    requires { rise_above 0 rows.old ≡ true }
    ensures { rows.new ≡ with_image num image rows.old }
{
    let place = place_of(num, rows.as_slice());
    if stands_at(place, num, rows.as_slice()) {
        let _old = rows.replace(place, Row { num, image });
    }
}

/// Takes the record of the number out.
pub(crate) fn take_row(rows: &mut Rows, num: u64)
    requires { rise_above 0 rows.old ≡ true }
    ensures { rows.new ≡ without_row num rows.old }
{
    let place = place_of(num, rows.as_slice());
    if stands_at(place, num, rows.as_slice()) {
        let _old = rows.remove(place);
    }
}
