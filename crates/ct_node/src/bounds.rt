//! The bounds of a node in the bytes of its page: a byte that says whether one is open, and its pair.

ghost use Rattle.std.specs.Prelude.{◌≡◌, ◌≤◌, ◌+◌, ◌∷◌, length, take, drop, replicate, option_map, Some};
ghost use Rattle.std.specs.Ordering.{is_lt};
ghost use Rattle.ct_definitions.specs.Pairs.{pair_cmp};
ghost use Rattle.ct_page.specs.Fields.{are_zero};
ghost use Rattle.ct_node.specs.Nodes.{is_from, is_below};
ghost use Rattle.ct_node.specs.Cells.{pair_at, pair_bytes, with_bytes};
ghost use Rattle.ct_node.specs.Stored.{edge_pair};
ghost use Rattle.ct_node.specs.Pages.{is_bound, bound_at, bound_bytes, high_at, cells_at, IsFitting};

use crate::cells::{record_at, record_bytes, write_at};
use crate::edge::Edge;
use ct_definitions::LONGEST_KEY;
use ct_page::{HEADER_SIZE, PAGE_SIZE, are_zero};
use std::cmp::Ordering;

/// How many bytes a bound has beside its key.
const BOUND_SIZE: usize = 9;

/// The first byte of a bound that is a pair.
const PAIR: u8 = 1;

/// Where the high bound stands: behind the header and the low bound.
pub(crate) fn high_at(key_len: usize) -> usize
    requires { key_len ≤ 128 }
    ensures { result ≡ high_at key_len }
{
    HEADER_SIZE + (BOUND_SIZE + key_len)
}

/// Where the entries stand: behind both bounds.
pub(crate) fn cells_at(key_len: usize) -> usize
    requires { key_len ≤ 128 }
    ensures { result ≡ cells_at key_len }
{
    HEADER_SIZE + 2 * (BOUND_SIZE + key_len)
}

/// Whether the bound at a place is a pair, or open and then all zeros.
pub(crate) fn is_bound(page: &[u8; PAGE_SIZE], at: usize, key_len: usize) -> bool
    requires { at + (9 + key_len) ≤ 4096 }
    ensures { result ≡ is_bound key_len at page.now }
{
    page[at] == PAIR || are_zero(&page[at..at + (BOUND_SIZE + key_len)])
}

/// The bound at a place, or `None` where it is open.
pub(crate) fn read_bound(page: &[u8; PAGE_SIZE], at: usize, key_len: usize) -> Option<Edge>
    requires key { key_len ≤ 128 }
    requires within { at + (9 + key_len) ≤ 4096 }
    ensures { option_map (edge_pair key_len) result ≡ bound_at key_len at page.now }
{
    if page[at] == 0 {
        return None;
    }
    Some(Edge::read(page.as_slice(), at + 1, key_len))
}

/// Writes a bound over the bytes from a place on.
pub(crate) fn write_bound(bytes: &mut [u8], at: usize, key_len: usize, bound: Option<Edge>)
    requires key { key_len ≤ 128 }
    requires within { at + (9 + key_len) ≤ length bytes.old }
    ensures bytes { bytes.new ≡ with_bytes at (bound_bytes key_len (option_map (edge_pair key_len) bound)) bytes.old }
    ensures fits { IsFitting key_len (option_map (edge_pair key_len) bound) }
{
    match bound {
        None => write_open(bytes, at, key_len),
        Some(edge) => write_edge(bytes, at, key_len, &edge),
    }
}

/// Writes an open bound over the bytes from a place on.
fn write_open(bytes: &mut [u8], at: usize, key_len: usize)
    requires { at + (9 + key_len) ≤ length bytes.old }
    ensures { bytes.new ≡ with_bytes at (replicate (9 + key_len) 0) bytes.old }
{
    bytes[at..at + (BOUND_SIZE + key_len)].fill(0);
}

/// Writes a bound that is a pair over the bytes from a place on.
fn write_edge(bytes: &mut [u8], at: usize, key_len: usize, edge: &Edge)
    requires key { key_len ≤ 128 }
    requires within { at + (9 + key_len) ≤ length bytes.old }
    ensures bytes { bytes.new ≡ with_bytes at (1 ∷ pair_bytes (edge_pair key_len edge.now)) bytes.old }
    ensures fits { IsFitting key_len (Some (edge_pair key_len edge.now)) }
{
    let key = key_of(&edge.key, key_len);
    write_at(bytes, at, &[PAIR]);
    write_at(bytes, at + 1, key);
    write_at(bytes, at + 1 + key_len, record_bytes(edge.num).as_slice());
}

/// The key in the first bytes of those that an edge keeps.
fn key_of(bytes: &[u8; LONGEST_KEY], key_len: usize) -> &[u8]
    requires { key_len ≤ 128 }
    ensures key { result.now ≡ take key_len bytes.now }
    ensures len { length result.now ≡ key_len }
{
    &bytes[..key_len]
}

/// Whether the pair at a place is at or above a low bound.
pub(crate) fn is_from(page: &[u8; PAGE_SIZE], bound: usize, at: usize, key_len: usize) -> bool
    requires bound { bound + (9 + key_len) ≤ 4096 }
    requires pair { at + (key_len + 8) ≤ 4096 }
    ensures { result ≡ is_from (bound_at key_len bound page.now) (pair_at key_len (drop at page.now)) }
{
    page[bound] == 0 || !is_below_at(page, at, bound + 1, key_len)
}

/// Whether the pair at a place is below a high bound.
pub(crate) fn is_below(page: &[u8; PAGE_SIZE], bound: usize, at: usize, key_len: usize) -> bool
    requires bound { bound + (9 + key_len) ≤ 4096 }
    requires pair { at + (key_len + 8) ≤ 4096 }
    ensures { result ≡ is_below (bound_at key_len bound page.now) (pair_at key_len (drop at page.now)) }
{
    page[bound] == 0 || is_below_at(page, at, bound + 1, key_len)
}

/// Whether the pair at a place is below the one at another.
pub(crate) fn is_below_at(page: &[u8; PAGE_SIZE], at: usize, other: usize, key_len: usize) -> bool
    requires pair { at + (key_len + 8) ≤ 4096 }
    requires other { other + (key_len + 8) ≤ 4096 }
    ensures { result ≡ is_lt (pair_cmp (pair_at key_len (drop at page.now)) (pair_at key_len (drop other page.now))) }
{
    let key = &page[at..at + key_len];
    match key.cmp(&page[other..other + key_len]) {
        Ordering::Less => true,
        Ordering::Equal => record_at(page.as_slice(), at + key_len)
            < record_at(page.as_slice(), other + key_len),
        Ordering::Greater => false,
    }
}
