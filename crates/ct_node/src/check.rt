//! Whether a page is in the grammar of nodes.

ghost use Rattle.std.specs.Prelude.{◌≡◌, ◌≤◌, ◌+◌, ◌*◌, ◌&&◌, drop, map, true};
ghost use Rattle.std.specs.List.{list_all};
ghost use Rattle.ct_page.specs.Fields.{u16_at, are_zero};
ghost use Rattle.ct_node.specs.Nodes.{is_within};
ghost use Rattle.ct_node.specs.Cells.{cells_of, pair_at};
ghost use Rattle.ct_node.specs.Pages.{is_node_kind, is_key_len, is_leaf_in, key_len_in, is_node_of_keys, has_node_header, is_bound, bound_at, rises, high_at, cells_at, is_node_page};

use crate::bounds::{cells_at, high_at, is_below, is_below_at, is_bound, is_from};
use crate::cells::width_of;
use crate::node::capacity_of;
use ct_definitions::LONGEST_KEY;
use ct_page::{HEADER_SIZE, PAGE_SIZE, PageKind, are_zero, has_header, u16_at};

/// Whether a page is a node: its header, its bounds, its entries in order within them, and zeros behind.
pub(crate) fn is_node_page(page: &[u8; PAGE_SIZE]) -> bool
    ensures { result ≡ is_node_page page.now }
{
    if !has_node_header(page) {
        return false;
    }
    let key_len = key_len_in(page);
    let count = count_in(page);
    has_body(page, count, width_of(key_len, is_leaf(page)), key_len)
}

/// Whether the body is that of a node: bounds, pairs in order within them, and zeros behind the cells.
fn has_body(page: &[u8; PAGE_SIZE], count: usize, width: usize, key_len: usize) -> bool
    requires key { key_len ≤ 128 }
    requires width { key_len + 8 ≤ width }
    requires cells { cells_at key_len + count * width ≤ 4096 }
    ensures { let pairs = map (pair_at key_len) (cells_of width count (drop (cells_at key_len) page.now)) in
        result ≡ ((is_bound key_len 128 page.now && is_bound key_len (high_at key_len) page.now)
        && (rises pairs && list_all (is_within (bound_at key_len 128 page.now) (bound_at key_len (high_at key_len) page.now)) pairs)
        && are_zero (drop (cells_at key_len + count * width) page.now)) }
{
    let cells = cells_at(key_len);
    has_bounds(page, key_len)
        && is_in_order(page, cells, count, width, key_len)
        && ends_in_zeros(page, cells + count * width)
}

/// Whether the header is that of a node, with no more entries than there is room for.
fn has_node_header(page: &[u8; PAGE_SIZE]) -> bool
    ensures { result ≡ has_node_header page.now }
{
    if !is_node_of_keys(page) {
        return false;
    }
    count_in(page) <= capacity_of(key_len_in(page), is_leaf(page))
}

/// Whether a page says that it is a node with keys.
fn is_node_of_keys(page: &[u8; PAGE_SIZE]) -> bool
    ensures { result ≡ is_node_of_keys page.now }
{
    has_header(page) && is_node_kind(page[0]) && is_key_len(key_len_in(page))
}

/// Whether a kind is that of a node.
fn is_node_kind(kind: u8) -> bool
    ensures { result ≡ is_node_kind kind }
{
    kind == PageKind::Leaf.number() || kind == PageKind::Inner.number()
}

/// Whether keys can be so long.
fn is_key_len(key_len: usize) -> bool
    ensures { result ≡ is_key_len key_len }
{
    1 <= key_len && key_len <= LONGEST_KEY
}

/// How long a page says that its keys are.
pub(crate) fn key_len_in(page: &[u8; PAGE_SIZE]) -> usize
    ensures { result ≡ key_len_in page.now }
{
    usize::from(page[24])
}

/// How many entries a page says that it has.
pub(crate) fn count_in(page: &[u8; PAGE_SIZE]) -> usize
    ensures { result ≡ u16_at 6 page.now }
{
    usize::from(u16_at(page, 6))
}

/// Whether a page says that it is a leaf.
pub(crate) fn is_leaf(page: &[u8; PAGE_SIZE]) -> bool
    ensures { result ≡ is_leaf_in page.now }
{
    page[0] == PageKind::Leaf.number()
}

/// Whether both bounds are in the grammar.
fn has_bounds(page: &[u8; PAGE_SIZE], key_len: usize) -> bool
    requires { key_len ≤ 128 }
    ensures { result ≡ (is_bound key_len 128 page.now && is_bound key_len (high_at key_len) page.now) }
{
    is_bound(page, HEADER_SIZE, key_len) && is_bound(page, high_at(key_len), key_len)
}

/// Whether all bytes from a place on are zero.
fn ends_in_zeros(page: &[u8; PAGE_SIZE], at: usize) -> bool
    requires { at ≤ 4096 }
    ensures { result ≡ are_zero (drop at page.now) }
{
    are_zero(&page[at..])
}

/// Whether the pairs of the cells from a place on rise and are within both bounds.
fn is_in_order(
    page: &[u8; PAGE_SIZE],
    at: usize,
    count: usize,
    width: usize,
    key_len: usize,
) -> bool
    requires key { key_len ≤ 128 }
    requires width { key_len + 8 ≤ width }
    requires cells { at + count * width ≤ 4096 }
    ensures { let pairs = map (pair_at key_len) (cells_of width count (drop at page.now)) in
        result ≡ (rises pairs && list_all (is_within (bound_at key_len 128 page.now) (bound_at key_len (high_at key_len) page.now)) pairs) }
{
    rises(page, at, count, width, key_len) && has_ends_within(page, at, count, width, key_len)
}

/// Whether the pairs of the cells from a place on rise.
fn rises(page: &[u8; PAGE_SIZE], at: usize, count: usize, width: usize, key_len: usize) -> bool
    requires width { key_len + 8 ≤ width }
    requires cells { at + count * width ≤ 4096 }
    ensures { result ≡ rises (map (pair_at key_len) (cells_of width count (drop at page.now))) }
{
    for place in 1..count {
        let cell = at + place * width;
        if !is_below_at(page, cell - width, cell, key_len) {
            return false;
        }
    }
    true
}

/// Whether pairs that rise are within both bounds, by the first and the last of them.
fn has_ends_within(
    page: &[u8; PAGE_SIZE],
    at: usize,
    count: usize,
    width: usize,
    key_len: usize,
) -> bool
    requires key { key_len ≤ 128 }
    requires width { key_len + 8 ≤ width }
    requires cells { at + count * width ≤ 4096 }
    requires rises { rises (map (pair_at key_len) (cells_of width count (drop at page.now))) ≡ true }
    ensures { result ≡ list_all (is_within (bound_at key_len 128 page.now) (bound_at key_len (high_at key_len) page.now)) (map (pair_at key_len) (cells_of width count (drop at page.now))) }
{
    if count == 0 {
        return true;
    }
    let last = at + (count - 1) * width;
    is_from(page, HEADER_SIZE, at, key_len) && is_below(page, high_at(key_len), last, key_len)
}
