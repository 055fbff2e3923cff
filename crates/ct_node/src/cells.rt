//! Entries in cells of one width: one found by halves, one put in and one taken out by a single
//! move of the bytes behind it.

ghost use Rattle.std.specs.Prelude.{◌≡◌, ◌≤◌, ◌<◌, ◌+◌, ◌*◌, ◌-◌, ◌++◌, ◌^◌, length, take, drop, map};
ghost use Rattle.std.specs.List.{prefix_len};
ghost use Rattle.std.specs.Int.{w64, to_be_bytes, from_be_bytes, from_le_bytes};
ghost use Rattle.ct_definitions.specs.Pairs.{pair_cmp};
ghost use Rattle.ct_node.specs.Nodes.{IsAscending, width_of};
ghost use Rattle.ct_node.specs.Cells.{cells_of, pair_at, pair_bytes, entry_bytes, with_bytes};
ghost use Rattle.ct_node.specs.Places.{is_before};

use crate::pair::Pair;
use ct_key::{KeyBuf, compare_bytes};
use std::alloc::Global;
use std::cmp::Ordering;

/// The number in the eight bytes from a place on, the high byte first.
pub(crate) fn record_at(bytes: &[u8], at: usize) -> u64
    requires { at + 8 ≤ length bytes.now }
    ensures { result ≡ from_be_bytes w64 (take 8 (drop at bytes.now)) }
{
    let mut number = [0; 8];
    number.copy_from_slice(&bytes[at..at + 8]);
    u64::from_be_bytes(number)
}

/// The number in the eight bytes from a place on, the low byte first.
pub(crate) fn page_at(bytes: &[u8], at: usize) -> u64
    requires { at + 8 ≤ length bytes.now }
    ensures { result ≡ from_le_bytes w64 (take 8 (drop at bytes.now)) }
{
    let mut number = [0; 8];
    number.copy_from_slice(&bytes[at..at + 8]);
    u64::from_le_bytes(number)
}

/// The key in the bytes from a place on.
pub(crate) fn key_at(alloc: Global, bytes: &[u8], at: usize, key_len: usize) -> KeyBuf
    requires key { key_len ≤ 128 }
    requires within { at + key_len ≤ length bytes.now }
    ensures { result ≡ take key_len (drop at bytes.now) }
{
    match KeyBuf::from_slice(alloc, &bytes[at..at + key_len]) {
        Ok(key) => key,
        Err(_refused) => unreachable!(),
    }
}

/// How the pair from a place on compares with another.
pub(crate) fn cmp_at(bytes: &[u8], at: usize, key_len: usize, pair: &Pair) -> Ordering
    requires { at + (key_len + 8) ≤ length bytes.now }
    ensures { result ≡ pair_cmp (pair_at key_len (drop at bytes.now)) pair.now }
{
    let key = &bytes[at..at + key_len];
    match compare_bytes(key, pair.key.as_slice()) {
        Ordering::Less => Ordering::Less,
        Ordering::Equal => record_at(bytes, at + key_len).cmp(&pair.num),
        Ordering::Greater => Ordering::Greater,
    }
}

/// Whether the pair from a place on is below another, or at it where that counts.
fn is_before_at(bytes: &[u8], at: usize, key_len: usize, pair: &Pair, or_at: bool) -> bool
    requires { at + (key_len + 8) ≤ length bytes.now }
    ensures { result ≡ is_before or_at pair.now (pair_at key_len (drop at bytes.now)) }
{
    match cmp_at(bytes, at, key_len, pair) {
        Ordering::Less => true,
        Ordering::Equal => or_at,
        Ordering::Greater => false,
    }
}

/// How many of the first `count` cells have a pair below another, or at it where that counts. The
/// cells are in order, and `width` bytes each.
pub(crate) fn count_before(
    cells: &[u8],
    count: usize,
    width: usize,
    key_len: usize,
    pair: &Pair,
    or_at: bool,
) -> usize
    requires width { key_len + 8 ≤ width }
    requires cells { count * width ≤ length cells.now }
    requires order { IsAscending (map (pair_at key_len) (cells_of width count cells.now)) }
    ensures within { result ≤ count }
    ensures before { result ≡ prefix_len (is_before or_at pair.now) (map (pair_at key_len) (cells_of width count cells.now)) }
{
    let mut low = 0;
    let mut high = count;
    while low < high {
        let middle = low + (high - low) / 2;
        if is_before_at(cells, middle * width, key_len, pair, or_at) {
            low = middle + 1;
        } else {
            high = middle;
        }
    }
    low
}

/// Writes bytes over those from a place on.
pub(crate) fn write_at(bytes: &mut [u8], at: usize, new: &[u8])
    requires { at + length new.now ≤ length bytes.old }
    ensures { bytes.new ≡ with_bytes at new.now bytes.old }
{
    bytes[at..at + new.len()].copy_from_slice(new);
}

/// The bytes of a record's number, the high byte first.
pub(crate) fn record_bytes(num: u64) -> [u8; 8]
    ensures bytes { result ≡ to_be_bytes w64 num }
    ensures number { num < 2 ^ 64 }
{
    num.to_be_bytes()
}

/// Writes a pair over the bytes from a place on.
fn write_pair(bytes: &mut [u8], at: usize, pair: &Pair)
    requires { at + (length pair.now.key + 8) ≤ length bytes.old }
    ensures bytes { bytes.new ≡ with_bytes at (pair_bytes pair.now) bytes.old }
    ensures number { pair.now.num < 2 ^ 64 }
{
    let key = pair.key.as_slice();
    write_at(bytes, at, key);
    write_at(bytes, at + key.len(), record_bytes(pair.num).as_slice());
}

/// Writes an entry over the bytes from a place on. That of a leaf has no page below.
fn write_entry(bytes: &mut [u8], at: usize, leaf: bool, pair: &Pair, child: u64)
    requires { at + width_of (length pair.now.key) leaf ≤ length bytes.old }
    ensures bytes { bytes.new ≡ with_bytes at (entry_bytes leaf (record { pair = pair.now; child = child })) bytes.old }
    ensures number { pair.now.num < 2 ^ 64 }
{
    if leaf {
        write_pair(bytes, at, pair);
        return;
    }
    write_pair(bytes, at, pair);
    let behind = at + pair.key.as_slice().len() + 8;
    write_at(bytes, behind, child.to_le_bytes().as_slice());
}

/// How many bytes an entry takes.
pub(crate) fn width_of(key_len: usize, leaf: bool) -> usize
    requires { key_len ≤ 128 }
    ensures { result ≡ width_of key_len leaf }
{
    if leaf { key_len + 8 } else { key_len + 16 }
}

/// Puts an entry in at a place, and moves the bytes from there to the end of the last cell up.
pub(crate) fn insert_entry(
    cells: &mut [u8],
    at: usize,
    end: usize,
    leaf: bool,
    pair: &Pair,
    child: u64,
)
    requires key { length pair.now.key ≤ 128 }
    requires order { at ≤ end }
    requires room { end + width_of (length pair.now.key) leaf ≤ length cells.old }
    ensures cells { let cell = entry_bytes leaf (record { pair = pair.now; child = child }) in
        cells.new ≡ take at cells.old
        ++ (cell ++ (take (end - at) (drop at cells.old) ++ drop (end + length cell) cells.old)) }
    ensures number { pair.now.num < 2 ^ 64 }
{
    let width = width_of(pair.key.as_slice().len(), leaf);
    move_up(cells, at, end, width);
    write_entry(cells, at, leaf, pair, child);
}

/// Moves the bytes of a range up by so many bytes. What stood there before is still there where the
/// moved bytes do not cover it.
fn move_up(bytes: &mut [u8], at: usize, end: usize, by: usize)
    requires order { at ≤ end }
    requires within { end + by ≤ length bytes.old }
    ensures { bytes.new ≡ take (at + by) bytes.old
        ++ (take (end - at) (drop at bytes.old) ++ drop (end + by) bytes.old) }
{
    bytes.copy_within(at..end, at + by);
}

/// Takes so many bytes out at a place, and moves those from there to the end of the last cell down.
pub(crate) fn remove_cell(cells: &mut [u8], at: usize, end: usize, width: usize)
    requires order { at + width ≤ end }
    requires within { end ≤ length cells.old }
    ensures { cells.new ≡ take at cells.old
        ++ (take (end - (at + width)) (drop (at + width) cells.old) ++ drop (end - width) cells.old) }
{
    cells.copy_within(at + width..end, at);
}

/// Copies the bytes of a range to the front of others.
pub(crate) fn copy_cells(cells: &[u8], start: usize, end: usize, into: &mut [u8])
    requires order { start ≤ end }
    requires within { end ≤ length cells.now }
    requires room { end - start ≤ length into.old }
    ensures { into.new ≡ take (end - start) (drop start cells.now) ++ drop (end - start) into.old }
{
    into[..end - start].copy_from_slice(&cells[start..end]);
}
