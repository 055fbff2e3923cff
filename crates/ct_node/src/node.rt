//! A node: its bounds, its right link and its entries, and the edits of one.

ghost use Rattle.std.specs.Prelude.{◌≡◌, ℕ, ◌≤◌, ◌<◌, ◌+◌, ◌*◌, ◌-◌, [], ◌++◌, length, take, drop, replicate, filter, slice_get, slice_index, false, true, nat_lt, if◌then◌else◌, option_map, Some, None, IsSome, IfSome, IsTrue};
ghost use Rattle.std.specs.List.{All, prefix_len};
ghost use Rattle.std.specs.Option.{option_map_or};
ghost use Rattle.std.specs.Ordering.{is_eq};
ghost use Rattle.ct_definitions.specs.Pairs.{pair_cmp, with_pair};
ghost use Rattle.ct_page.specs.declared.kind.PageKind.TheVariants.{Leaf, Inner};
ghost use Rattle.ct_page.specs.Fields.{u64_at};
ghost use Rattle.ct_page.specs.Headers.{has_fields};
ghost use Rattle.ct_node.specs.Nodes.{Entry, IsNode, pairs_in, capacity_of, is_from, is_below, is_within, has_pair, with_entry, has_other_pair};
ghost use Rattle.ct_node.specs.declared.target.Target.TheVariants.{At, Before};
ghost use Rattle.ct_node.specs.Cells.{cells_of, pair_at, with_bytes};
ghost use Rattle.ct_node.specs.Places.{is_before, is_past, is_ahead, here, down, next_place, begins_below};
ghost use Rattle.ct_node.specs.Halves.{middle_of, upper_half, lower_half};
ghost use Rattle.ct_node.specs.Roles.{begins_at_low};
ghost use Rattle.ct_node.specs.Reaches.{is_in_role, is_same_bound, rises, is_known, is_of_kind, reach_here, reach_right, reach_half, reach_below, low_below, reach_next};
ghost use Rattle.ct_node.specs.Pages.{node_in, header_in, page_text};

use crate::bounds::{cells_at, high_at, read_bound, write_bound};
use crate::cells::{
    cmp_at, copy_cells, count_before, insert_entry, key_at, page_at, record_at, remove_cell,
    width_of, write_at,
};
use crate::check::{count_in, is_leaf, is_node_page, key_len_in};
use crate::edge::{Edge, first_of};
use crate::pair::Pair;
use crate::reach::Reach;
use crate::target::{Place, Target};
use ct_page::{HEADER_SIZE, Header, PAGE_SIZE, PageKind, u16_at, u64_at};
use std::alloc::Global;
use std::marker::Model;

/// How many bytes of a page a node has for its bounds and entries.
const BODY: usize = 3968;

/// A node of an index. It stands in the value itself, some 4 KiB, and takes no memory.
///
/// Contracts see its file and index, whether it is a leaf, the length of its keys, its bounds, its
/// right link and its entries in order.
#[derive(Drop)]
pub struct Node {
    file: u16,
    index: u16,
    leaf: bool,
    key_len: usize,
    low: Option<Edge>,
    high: Option<Edge>,
    right: u64,
    count: usize,
    cells: [u8; BODY],
}

impl Model for Node {
    ghost use Rattle.ct_node.specs.Nodes.{NodeValue, IsNode};

    ghost Value = { NodeValue };

    ghost use Rattle.ct_node.specs.Stored.{value_of};

    ghost view = { value_of };

    ghost invariant = { λ node. IsNode (value_of node) };
}

impl Node {
    /// A node without entries, open to both sides and without a right link.
    pub fn new(file: u16, index: u16, leaf: bool, key_len: u16) -> Node
        requires some_key { 1 ≤ key_len }
        requires short_key { key_len ≤ 128 }
        ensures file { result.file ≡ file }
        ensures index { result.index ≡ index }
        ensures leaf { result.leaf ≡ leaf }
        ensures key_len { result.key_len ≡ key_len }
        ensures low { result.low ≡ None }
        ensures high { result.high ≡ None }
        ensures right { result.right ≡ 0 }
        ensures entries { result.entries ≡ [] }
    {
        Node {
            file,
            index,
            leaf,
            key_len: usize::from(key_len),
            low: None,
            high: None,
            right: 0,
            count: 0,
            cells: [0; BODY],
        }
    }

    /// The node of a page, or `None` where it is outside the grammar of nodes.
    pub fn from_page(bytes: &[u8; PAGE_SIZE]) -> Option<Node>
        ensures node { result ≡ node_in bytes.now }
        ensures text { IfSome result (λ node. page_text (u64_at 8 bytes.now) node ≡ bytes.now) }
    {
        if !is_node_page(bytes) {
            return None;
        }
        Some(Node::from_node_page(bytes))
    }

    /// The node of a page that is known to be one.
    pub fn from_node_page(bytes: &[u8; PAGE_SIZE]) -> Node
        requires { IsSome (node_in bytes.now) }
        ensures node { Some result ≡ node_in bytes.now }
        ensures text { page_text (u64_at 8 bytes.now) result ≡ bytes.now }
    {
        let key_len = key_len_in(bytes);
        Node {
            file: u16_at(bytes, 2),
            index: u16_at(bytes, 4),
            leaf: is_leaf(bytes),
            key_len,
            low: read_bound(bytes, HEADER_SIZE, key_len),
            high: read_bound(bytes, high_at(key_len), key_len),
            right: u64_at(bytes, 16),
            count: count_in(bytes),
            cells: cells_from(bytes, cells_at(key_len)),
        }
    }

    /// Writes the page of this node, with the position of its last image.
    pub fn to_page(&self, position: u64, into: &mut [u8; PAGE_SIZE])
        ensures text { into.new ≡ page_text position self.now }
        ensures node { node_in into.new ≡ Some self.now }
    {
        self.header(position).write(into);
        let cells_at = cells_at(self.key_len);
        let len = self.count * width_of(self.key_len, self.leaf);
        write_bound(into, HEADER_SIZE, self.key_len, self.low);
        write_bound(into, high_at(self.key_len), self.key_len, self.high);
        write_cells(into, cells_at, &self.cells, len);
        clear_from(into, cells_at + len);
    }

    /// The header of its page.
    fn header(&self, position: u64) -> Header
        ensures header { result ≡ header_in position self.now }
        ensures fields { IsTrue (has_fields (header_in position self.now)) }
    {
        header_of(
            self.leaf,
            self.file,
            self.index,
            self.count as u16,
            position,
            self.right,
            self.key_len as u8,
        )
    }

    pub fn file(&self) -> u16
        ensures { result ≡ self.now.file }
    {
        self.file
    }

    pub fn index(&self) -> u16
        ensures { result ≡ self.now.index }
    {
        self.index
    }

    pub fn is_leaf(&self) -> bool
        ensures { result ≡ self.now.leaf }
    {
        self.leaf
    }

    pub fn key_len(&self) -> usize
        ensures { result ≡ self.now.key_len }
    {
        self.key_len
    }

    /// The pair at which it begins, where it is not open to the left. It takes no memory.
    pub fn low(&self, alloc: Global) -> Option<Pair>
        ensures { result ≡ self.now.low }
    {
        match self.low {
            Some(low) => Some(low.pair(alloc, self.key_len)),
            None => None,
        }
    }

    /// The pair at which it ends, where it is not open to the right. It takes no memory.
    fn high(&self, alloc: Global) -> Option<Pair>
        ensures { result ≡ self.now.high }
    {
        match self.high {
            Some(high) => Some(high.pair(alloc, self.key_len)),
            None => None,
        }
    }

    /// The page to the right, or 0 where there is none.
    pub fn right(&self) -> u64
        ensures { result ≡ self.now.right }
    {
        self.right
    }

    /// How many entries it has.
    pub fn count(&self) -> usize
        ensures count { result ≡ length self.now.entries }
        ensures node { IsNode self.now }
        ensures keys { All (λ pair. length pair.key ≡ self.now.key_len) (pairs_in self.now) }
    {
        self.count
    }

    /// Whether it has room for one more entry.
    pub fn fits(&self) -> bool
        ensures { result ≡ nat_lt (length self.now.entries) (capacity_of self.now.key_len self.now.leaf) }
    {
        self.count < capacity_of(self.key_len, self.leaf)
    }

    /// Whether it has a pair.
    pub fn has(&self, pair: &Pair) -> bool
        ensures { result ≡ has_pair pair.now (pairs_in self.now) }
    {
        let width = width_of(self.key_len, self.leaf);
        let place = self.count_before(pair, false);
        let cells = self.cells.as_slice();
        is_cell_of(cells, place, self.count, width, self.key_len, pair)
    }

    /// Whether a pair is within its bounds.
    pub fn covers(&self, pair: &Pair) -> bool
        ensures { result ≡ is_within self.now.low self.now.high pair.now }
    {
        self.is_from(pair) && self.is_below(pair)
    }

    fn is_from(&self, pair: &Pair) -> bool
        ensures { result ≡ is_from self.now.low pair.now }
    {
        let Some(low) = &self.low else {
            return true;
        };
        !low.cmp_pair(self.key_len, pair).is_gt()
    }

    fn is_below(&self, pair: &Pair) -> bool
        ensures { result ≡ is_below self.now.high pair.now }
    {
        let Some(high) = &self.high else {
            return true;
        };
        high.cmp_pair(self.key_len, pair).is_gt()
    }

    /// Whether its low bound is below a pair.
    pub fn begins_below(&self, pair: &Pair) -> bool
        ensures { result ≡ begins_below self.now.low pair.now }
    {
        let Some(low) = &self.low else {
            return true;
        };
        low.cmp_pair(self.key_len, pair).is_lt()
    }

    /// Whether an inner node begins at its low bound, or at zeros where that is open. So it has an
    /// entry. Of a leaf nothing is asked.
    pub fn begins_at_low(&self) -> bool
        ensures { result ≡ begins_at_low self.now }
    {
        if self.leaf || self.count == 0 {
            return self.leaf;
        }
        first_of(&self.low).is_at(self.cells.as_slice(), self.key_len)
    }

    /// Whether it is in its role, as the way that leads to its page tells.
    pub fn is_in_role(&self, reach: &Reach) -> bool
        ensures { result ≡ is_in_role reach.now self.now }
    {
        is_known_file(reach.file, self.file)
            && reach.index == self.index
            && is_of_kind(reach.leaf, self.leaf)
            && is_known_length(reach.key_len, self.key_len)
            && self.begins_at(&reach.low)
            && self.rises()
            && self.begins_at_low()
    }

    /// Whether a bound is its low one.
    fn begins_at(&self, bound: &Option<Pair>) -> bool
        ensures { result ≡ is_same_bound self.now.low bound.now }
    {
        let Some(low) = &self.low else {
            return bound.is_none();
        };
        match bound {
            Some(pair) => low.cmp_pair(self.key_len, pair).is_eq(),
            None => false,
        }
    }

    /// Whether its low bound is below its high one.
    fn rises(&self) -> bool
        ensures { result ≡ rises self.now.low self.now.high }
    {
        let Some(low) = &self.low else {
            return true;
        };
        match &self.high {
            Some(high) => low.is_below(high, self.key_len),
            None => true,
        }
    }

    /// The way to its page, now that it was looked at. It takes no memory.
    pub fn reach_here(&self, alloc: Global) -> Reach
        ensures { result ≡ reach_here self.now }
    {
        Reach {
            file: Some(self.file),
            index: self.index,
            leaf: Some(self.leaf),
            key_len: Some(self.key_len),
            low: self.low(alloc),
        }
    }

    /// The way to the page to the right. It takes no memory.
    pub fn reach_right(&self, alloc: Global) -> Reach
        ensures { result ≡ reach_right self.now }
    {
        Reach {
            file: Some(self.file),
            index: self.index,
            leaf: Some(self.leaf),
            key_len: Some(self.key_len),
            low: self.high(alloc),
        }
    }

    /// The way to the page of the right half, where the node is to be cut. It takes no memory.
    pub fn reach_half(&self, alloc: Global) -> Reach
        ensures { result ≡ reach_half self.now }
    {
        let middle = self.count() / 2;
        let low = if middle < self.count() {
            Some(self.pair(alloc, middle))
        } else {
            None
        };
        Reach {
            file: Some(self.file),
            index: self.index,
            leaf: Some(self.leaf),
            key_len: Some(self.key_len),
            low,
        }
    }

    /// The way to the page below of the entry at a place. It takes no memory.
    fn reach_below(&self, alloc: Global, place: usize) -> Reach
        ensures { result ≡ reach_below self.now place }
    {
        Reach {
            file: Some(self.file),
            index: self.index,
            leaf: None,
            key_len: Some(self.key_len),
            low: self.low_below(alloc, place),
        }
    }

    /// The low bound of the page below of the entry at a place.
    fn low_below(&self, alloc: Global, place: usize) -> Option<Pair>
        ensures { result ≡ low_below self.now place }
    {
        if place == 0 {
            return self.low(alloc);
        }
        if place >= self.count() {
            return None;
        }
        Some(self.pair(alloc, place))
    }

    /// Puts a pair into a leaf.
    pub fn put(&mut self, pair: &Pair)
        requires leaf { self.old.leaf ≡ true }
        requires fits { length self.old.entries < capacity_of self.old.key_len self.old.leaf }
        requires key { length pair.now.key ≡ self.old.key_len }
        requires absent { has_pair pair.now (pairs_in self.old) ≡ false }
        requires within { is_within self.old.low self.old.high pair.now ≡ true }
        ensures node { self.new ≡ record self.old { entries = with_entry (record { pair = pair.now; child = 0 }) self.old.entries } }
        ensures pairs { pairs_in self.new ≡ with_pair pair.now (pairs_in self.old) }
    {
        self.insert(pair, 0);
    }

    /// Posts a page below to an inner node, for the pairs from `low` on.
    pub fn post(&mut self, low: &Pair, child: u64)
        requires inner { self.old.leaf ≡ false }
        requires fits { length self.old.entries < capacity_of self.old.key_len self.old.leaf }
        requires key { length low.now.key ≡ self.old.key_len }
        requires absent { has_pair low.now (pairs_in self.old) ≡ false }
        requires within { is_within self.old.low self.old.high low.now ≡ true }
        ensures node { self.new ≡ record self.old { entries = with_entry (record { pair = low.now; child = child }) self.old.entries } }
        ensures pairs { pairs_in self.new ≡ with_pair low.now (pairs_in self.old) }
    {
        self.insert(low, child);
    }

    fn insert(&mut self, pair: &Pair, child: u64)
        requires fits { length self.old.entries < capacity_of self.old.key_len self.old.leaf }
        requires key { length pair.now.key ≡ self.old.key_len }
        requires absent { has_pair pair.now (pairs_in self.old) ≡ false }
        requires within { is_within self.old.low self.old.high pair.now ≡ true }
        ensures node { let page = (if self.old.leaf then 0 else child) in
            self.new ≡ record self.old { entries = with_entry (record { pair = pair.now; child = page }) self.old.entries } }
        ensures pairs { pairs_in self.new ≡ with_pair pair.now (pairs_in self.old) }
    {
        let width = width_of(self.key_len, self.leaf);
        let cells = self.cells.as_slice();
        let place = count_before(cells, self.count, width, self.key_len, pair, false);
        let end = self.count * width;
        insert_entry(
            self.cells.as_mut_slice(),
            place * width,
            end,
            self.leaf,
            pair,
            child,
        );
        self.count += 1;
    }

    /// Takes a pair out. The answer is false where it is not there, and then nothing changes.
    pub fn take(&mut self, pair: &Pair) -> bool
        ensures found { result ≡ has_pair pair.now (pairs_in self.old) }
        ensures node { self.new ≡ record self.old { entries = filter (has_other_pair pair.now) self.old.entries } }
    {
        let width = width_of(self.key_len, self.leaf);
        let cells = self.cells.as_slice();
        let place = count_before(cells, self.count, width, self.key_len, pair, false);
        let end = self.count * width;
        if !is_cell_of(
            self.cells.as_slice(),
            place,
            self.count,
            width,
            self.key_len,
            pair,
        ) {
            return false;
        }
        remove_cell(self.cells.as_mut_slice(), place * width, end, width);
        self.count -= 1;
        true
    }

    /// The pair at a place. It takes no memory.
    pub fn pair(&self, alloc: Global, place: usize) -> Pair
        requires { place < length self.now.entries }
        ensures { slice_get (pairs_in self.now) place ≡ Some result }
    {
        let width = width_of(self.key_len, self.leaf);
        let start = place * width;
        let key = key_at(alloc, self.cells.as_slice(), start, self.key_len);
        let num = record_at(self.cells.as_slice(), start + self.key_len);
        Pair { key, num }
    }

    /// Makes another node a copy of this one. What the other was is gone.
    pub fn copy_into(&self, into: &mut Node)
        ensures { into.new ≡ self.now }
    {
        let end = self.count * width_of(self.key_len, self.leaf);
        into.file = self.file;
        into.index = self.index;
        into.leaf = self.leaf;
        into.key_len = self.key_len;
        into.low = self.low;
        into.high = self.high;
        into.right = self.right;
        into.count = self.count;
        copy_cells(self.cells.as_slice(), 0, end, into.cells.as_mut_slice());
    }

    /// Makes another node the one to the right of this: from the middle pair on, up to the bound and
    /// the right link of this one. What the other was is gone.
    pub fn upper_half(&self, into: &mut Node)
        requires { 2 ≤ length self.now.entries }
        ensures node { into.new ≡ upper_half self.now }
        ensures joined { take (middle_of self.now) self.now.entries ++ into.new.entries ≡ self.now.entries }
    {
        let width = width_of(self.key_len, self.leaf);
        let middle = self.count / 2;
        let start = middle * width;
        let end = self.count * width;
        into.file = self.file;
        into.index = self.index;
        into.leaf = self.leaf;
        into.key_len = self.key_len;
        into.low = Some(Edge::read(self.cells.as_slice(), start, self.key_len));
        into.high = self.high;
        into.right = self.right;
        into.count = self.count - middle;
        copy_cells(self.cells.as_slice(), start, end, into.cells.as_mut_slice());
    }

    /// Cuts the node before its middle pair, and links it to the node to the right.
    pub fn cut(&mut self, right: u64)
        requires { 2 ≤ length self.old.entries }
        ensures node { self.new ≡ lower_half right self.old }
        ensures joined { self.new.entries ++ drop (middle_of self.old) self.old.entries ≡ self.old.entries }
    {
        let width = width_of(self.key_len, self.leaf);
        let middle = self.count / 2;
        self.high = Some(Edge::read(self.cells.as_slice(), middle * width, self.key_len));
        self.right = right;
        self.count = middle;
    }

    /// Where the walk to a target goes on from this node.
    pub fn next_place(&self, target: &Target) -> Place
        ensures { result ≡ next_place self.now target.now }
    {
        if self.is_past(target) {
            return Place::Right(self.right);
        }
        if self.leaf {
            return self.here(self.count_ahead(target, false));
        }
        self.below(self.place_below(target))
    }

    /// The place of the entry through which the walk to a target goes down from an inner node.
    pub fn place_below(&self, target: &Target) -> usize
        ensures { result ≡ prefix_len (is_ahead true target.now) (pairs_in self.now) - 1 }
    {
        self.count_ahead(target, true).saturating_sub(1)
    }

    /// The page below of the entry at a place of an inner node, where it has one.
    pub fn child(&self, place: usize) -> Option<u64>
        requires { self.now.leaf ≡ false }
        ensures { result ≡ option_map (λ (entry : Entry). entry.child) (slice_get self.now.entries place) }
    {
        if place >= self.count {
            return None;
        }
        let width = width_of(self.key_len, self.leaf);
        let behind = place * width + self.key_len + 8;
        Some(page_at(self.cells.as_slice(), behind))
    }

    /// Makes the way to this node that to the page on its right. It takes no memory.
    pub fn come_right(&self, alloc: Global, reach: &mut Reach)
        ensures { reach.new ≡ reach_right self.now }
    {
        *reach = self.reach_right(alloc);
    }

    /// Makes the way to this node that to the page below of the entry at a place. It takes no
    /// memory.
    pub fn come_below(&self, alloc: Global, place: usize, reach: &mut Reach)
        ensures { reach.new ≡ reach_below self.now place }
    {
        *reach = self.reach_below(alloc, place);
    }

    /// The way to the page at which the walk to a target goes on. It takes no memory.
    pub fn reach_next(&self, alloc: Global, target: &Target) -> Reach
        ensures { result ≡ reach_next self.now target.now }
    {
        if self.is_past(target) {
            return self.reach_right(alloc);
        }
        if self.leaf {
            return self.reach_here(alloc);
        }
        self.reach_below(alloc, self.place_below(target))
    }

    /// The way to the page at which the walk to a pair goes on. It takes no memory.
    pub fn reach_next_at(&self, alloc: Global, pair: &Pair) -> Reach
        ensures { result ≡ reach_next self.now (At pair.now) }
    {
        if !self.is_below(pair) {
            return self.reach_right(alloc);
        }
        if self.leaf {
            return self.reach_here(alloc);
        }
        let ahead = self.count_before(pair, true);
        self.reach_below(alloc, ahead.saturating_sub(1))
    }

    /// The way to the page at which the walk to the node that ends at a pair goes on. It takes no
    /// memory.
    pub fn reach_next_before(&self, alloc: Global, pair: &Pair) -> Reach
        ensures { result ≡ reach_next self.now (Before pair.now) }
    {
        if self.ends_below(pair) {
            return self.reach_right(alloc);
        }
        if self.leaf {
            return self.reach_here(alloc);
        }
        let ahead = self.count_before(pair, false);
        self.reach_below(alloc, ahead.saturating_sub(1))
    }

    /// Whether its high bound is below a pair.
    fn ends_below(&self, pair: &Pair) -> bool
        ensures { result ≡ is_past self.now.high (Before pair.now) }
    {
        let Some(high) = &self.high else {
            return false;
        };
        high.cmp_pair(self.key_len, pair).is_lt()
    }

    /// Whether a target is at or above the high bound.
    pub fn is_past(&self, target: &Target) -> bool
        ensures { result ≡ is_past self.now.high target.now }
    {
        let Some(high) = &self.high else {
            return false;
        };
        match target {
            Target::First => false,
            Target::Last => true,
            Target::At(pair) => !high.cmp_pair(self.key_len, pair).is_gt(),
            Target::Before(pair) => high.cmp_pair(self.key_len, pair).is_lt(),
        }
    }

    /// How many pairs are below a target, or at it where that counts.
    pub fn count_ahead(&self, target: &Target, or_at: bool) -> usize
        ensures { result ≡ prefix_len (is_ahead or_at target.now) (pairs_in self.now) }
    {
        match target {
            Target::First => 0,
            Target::Last => self.count(),
            Target::At(pair) => self.count_before(pair, or_at),
            Target::Before(pair) => self.count_before(pair, false),
        }
    }

    /// How many pairs are below another, or at it where that counts.
    fn count_before(&self, pair: &Pair, or_at: bool) -> usize
        ensures { result ≡ prefix_len (is_before or_at pair.now) (pairs_in self.now) }
    {
        let width = width_of(self.key_len, self.leaf);
        count_before(
            self.cells.as_slice(),
            self.count,
            width,
            self.key_len,
            pair,
            or_at,
        )
    }

    /// In a leaf at the pair of a place, or behind the last pair.
    fn here(&self, place: usize) -> Place
        ensures { result ≡ here (pairs_in self.now) place }
    {
        if place < self.count {
            Place::Here(place)
        } else {
            Place::End
        }
    }

    /// Down to the page of the entry at a place of an inner node.
    fn below(&self, place: usize) -> Place
        requires { self.now.leaf ≡ false }
        ensures { result ≡ down (slice_get self.now.entries place) }
    {
        match self.child(place) {
            Some(child) => Place::Down(child),
            None => Place::End,
        }
    }
}

/// Whether a file is the one that is known, where one is.
fn is_known_file(known: Option<u16>, file: u16) -> bool
    ensures { result ≡ is_known known file }
{
    match known {
        Some(known) => known == file,
        None => true,
    }
}

/// Whether a key length is the one that is known, where one is.
fn is_known_length(known: Option<usize>, key_len: usize) -> bool
    ensures { result ≡ is_known known key_len }
{
    match known {
        Some(known) => known == key_len,
        None => true,
    }
}

/// Whether a node is a leaf or not, as is known, where it is.
fn is_of_kind(known: Option<bool>, leaf: bool) -> bool
    ensures { result ≡ is_of_kind known leaf }
{
    match known {
        Some(known) => known == leaf,
        None => true,
    }
}

/// Whether the cell of a place is there and has a pair.
fn is_cell_of(
    cells: &[u8],
    place: usize,
    count: usize,
    width: usize,
    key_len: usize,
    pair: &Pair,
) -> bool
    requires width { key_len + 8 ≤ width }
    requires cells { count * width ≤ length cells.now }
    ensures pair { result ≡ option_map_or (λ cell. is_eq (pair_cmp (pair_at key_len cell) pair.now)) (slice_get (cells_of width count cells.now) place) false }
    ensures within { result ≡ true → place < count }
{
    place < count && cmp_at(cells, place * width, key_len, pair).is_eq()
}

/// How many entries a node has room for.
pub(crate) fn capacity_of(key_len: usize, leaf: bool) -> usize
    requires { key_len ≤ 128 }
    ensures { result ≡ capacity_of key_len leaf }
{
    (BODY - 2 * (9 + key_len)) / width_of(key_len, leaf)
}

/// The header of a node's page.
fn header_of(
    leaf: bool,
    file: u16,
    index: u16,
    count: u16,
    position: u64,
    right: u64,
    key_len: u8,
) -> Header
    ensures header { result ≡ record { kind = if leaf then Leaf else Inner; file = file; index = index; count = count; position = position; right = right; key_len = key_len } }
    ensures fields { IsTrue (has_fields result) }
{
    let kind = if leaf {
        PageKind::Leaf
    } else {
        PageKind::Inner
    };
    Header {
        kind,
        file,
        index,
        count,
        position,
        right,
        key_len,
    }
}

/// The bytes of a page from a place on, and zeros behind them.
fn cells_from(page: &[u8; PAGE_SIZE], at: usize) -> [u8; BODY]
    requires behind { 128 ≤ at }
    requires within { at ≤ 4096 }
    ensures { result ≡ drop at page.now ++ replicate (at - 128) 0 }
{
    let mut cells = [0; BODY];
    copy_cells(page.as_slice(), at, PAGE_SIZE, cells.as_mut_slice());
    cells
}

/// Writes the first bytes of a node's cells over those of a page from a place on.
fn write_cells(page: &mut [u8; PAGE_SIZE], at: usize, cells: &[u8; BODY], len: usize)
    requires len { len ≤ 3968 }
    requires within { at + len ≤ 4096 }
    ensures page { page.new ≡ with_bytes at (take len cells.now) page.old }
    ensures bytes { (i : ℕ) → slice_index cells.now i < 256 }
{
    write_at(page, at, &cells[..len]);
}

/// Makes the bytes of a page from a place on zeros.
fn clear_from(page: &mut [u8; PAGE_SIZE], at: usize)
    requires { at ≤ 4096 }
    ensures { page.new ≡ take at page.old ++ replicate (4096 - at) 0 }
{
    page[at..].fill(0);
}
