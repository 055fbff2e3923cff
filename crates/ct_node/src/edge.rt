//! The pair at which a node begins or ends, kept in the node itself.

ghost use Rattle.std.specs.Prelude.{◌≡◌, ℕ, ◌≤◌, ◌+◌, length, drop, option_map};
ghost use Rattle.std.specs.Ordering.{is_lt, is_eq};
ghost use Rattle.ct_definitions.specs.Pairs.{pair_cmp};
ghost use Rattle.ct_node.specs.Cells.{pair_at};
ghost use Rattle.ct_node.specs.Stored.{edge_pair};
ghost use Rattle.ct_node.specs.Roles.{first_of};

use crate::cells::{key_at, record_at};
use crate::pair::Pair;
use ct_definitions::LONGEST_KEY;
use ct_key::compare_bytes;
use std::alloc::Global;
use std::cmp::Ordering;

/// A pair whose key is as long as the node's keys are.
#[derive(Clone, Copy)]
pub(crate) struct Edge {
    pub(crate) key: [u8; LONGEST_KEY],
    pub(crate) num: u64,
}

impl Edge {
    /// The pair in the bytes from a place on.
    pub(crate) fn read(bytes: &[u8], at: usize, key_len: usize) -> Edge
        requires key { key_len ≤ 128 }
        requires within { at + (key_len + 8) ≤ length bytes.now }
        ensures { edge_pair key_len result ≡ pair_at key_len (drop at bytes.now) }
    {
        let mut key = [0; LONGEST_KEY];
        key[..key_len].copy_from_slice(&bytes[at..at + key_len]);
        Edge {
            key,
            num: record_at(bytes, at + key_len),
        }
    }

    /// The pair itself.
    pub(crate) fn pair(&self, alloc: Global, key_len: usize) -> Pair
        requires { key_len ≤ 128 }
        ensures { result ≡ edge_pair key_len self.now }
    {
        let key = key_at(alloc, self.key.as_slice(), 0, key_len);
        Pair { key, num: self.num }
    }

    /// How it compares with another pair.
    pub(crate) fn cmp_pair(&self, key_len: usize, pair: &Pair) -> Ordering
        requires { key_len ≤ 128 }
        ensures { result ≡ pair_cmp (edge_pair key_len self.now) pair.now }
    {
        let key = &self.key[..key_len];
        match compare_bytes(key, pair.key.as_slice()) {
            Ordering::Less => Ordering::Less,
            Ordering::Equal => self.num.cmp(&pair.num),
            Ordering::Greater => Ordering::Greater,
        }
    }

    /// Whether it is below another one with a key of the same length.
    pub(crate) fn is_below(&self, other: &Edge, key_len: usize) -> bool
        requires { key_len ≤ 128 }
        ensures { result ≡ is_lt (pair_cmp (edge_pair key_len self.now) (edge_pair key_len other.now)) }
    {
        match compare_bytes(&self.key[..key_len], &other.key[..key_len]) {
            Ordering::Less => true,
            Ordering::Equal => self.num < other.num,
            Ordering::Greater => false,
        }
    }

    /// Whether it is the pair that bytes begin with.
    pub(crate) fn is_at(&self, bytes: &[u8], key_len: usize) -> bool
        requires key { key_len ≤ 128 }
        requires within { key_len + 8 ≤ length bytes.now }
        ensures { result ≡ is_eq (pair_cmp (pair_at key_len bytes.now) (edge_pair key_len self.now)) }
    {
        let key = &bytes[..key_len];
        match compare_bytes(key, &self.key[..key_len]) {
            Ordering::Equal => record_at(bytes, key_len) == self.num,
            _ => false,
        }
    }
}

/// The pair of zeros.
const ZEROS: Edge = Edge {
    key: [0; LONGEST_KEY],
    num: 0,
};

/// The pair with which an inner node of this low bound begins: the bound, or zeros where it is open.
pub(crate) fn first_of(low: &Option<Edge>) -> &Edge
    ensures { (key_len : ℕ) → key_len ≤ 128 → edge_pair key_len result.now ≡ first_of key_len (option_map (edge_pair key_len) low.now) }
{
    match low {
        Some(edge) => edge,
        None => &ZEROS,
    }
}
