//! `Pairs`, the pairs of one index, which contracts see as their list in order.
//! A pair above all others goes behind them. Every other operation takes time by the logarithm of their
//! count, averaged over operations.

ghost use Rattle.std.specs.Prelude.{◌≡◌, ℕ, true, false, not, ◌&&◌, [], length, IsTrue, Ok, OnOk, OnErr};
ghost use Rattle.std.specs.Option.{option_copied};
ghost use Rattle.std.specs.List.{list_all};
ghost use Rattle.std.specs.List.Sorted.{IsStrictlySortedBy};
ghost use Rattle.std.specs.Range.Bound.{bound_map};
ghost use Rattle.std.specs.BTreeMap.Range.{is_from_start, is_past_end};
ghost use Rattle.ct_definitions.specs.Pairs.{with_pair, pair_cmp};
ghost use Rattle.ct_pairs.specs.Finds.{has_pair, without_pair, has_other_with, found_pair, least, greatest, is_above, is_below, has_key, is_at_or_above, is_key_above, is_at_or_below, is_key_below, is_in_set};

use crate::ordered::Ordered;
use crate::pair::Pair;
use crate::seek::Seek;
use ct_items::NoMemory;
use ct_key::compare_bytes;
use std::alloc::Global;
use std::marker::Model;
use std::ops::Bound;

/// The pairs of one index, in order.
#[derive(Drop)]
pub struct Pairs {
    ordered: Ordered,
    alloc: Global,
}

impl Model for Pairs {
    ghost use Rattle.std.specs.Prelude.{List};
    ghost use Rattle.ct_definitions.specs.Pairs.{Pair};

    ghost Value = { List Pair };

    ghost view = { λ pairs. pairs.ordered };
}

impl Pairs {
    /// No pairs.
    pub fn new(alloc: Global) -> Pairs
        ensures { result ≡ [] }
    {
        Pairs {
            ordered: Ordered::new(alloc),
            alloc,
        }
    }

    /// How many pairs there are.
    pub fn len(&self) -> usize
        ensures { result ≡ length self.now }
    {
        self.ordered.len()
    }

    /// Whether the pair is among them.
    pub fn contains(&self, pair: &Pair) -> bool
        ensures { result ≡ has_pair pair.now self.now }
    {
        self.ordered.contains(pair)
    }

    /// Puts a pair that is not among them at its place.
    pub fn put(&mut self, pair: Pair) -> Result<(), NoMemory>
        requires { has_pair pair self.old ≡ false }
        ensures ok { OnOk result (self.new ≡ with_pair pair self.old) }
        ensures err { OnErr result (self.new ≡ self.old) }
    {
        self.ordered.put(pair)
    }

    /// Puts a pair that is not among them at its place, unless a pair of another number has its key. Answers
    /// whether it was put.
    pub fn put_alone(&mut self, pair: Pair) -> Result<bool, NoMemory>
        requires { has_pair pair self.old ≡ false }
        ensures put { result ≡ Ok true → self.new ≡ with_pair pair self.old }
        ensures alone { result ≡ Ok true → has_other_with pair.num pair.key self.old ≡ false }
        ensures kept { result ≡ Ok false → self.new ≡ self.old }
        ensures taken { result ≡ Ok false → has_other_with pair.num pair.key self.old ≡ true }
        ensures err { OnErr result (self.new ≡ self.old) }
    {
        if self.ends_below(pair.key()) {
            self.ordered.push(pair)?;
            return Ok(true);
        }
        if self.has_other_with(pair.num(), pair.key()) {
            return Ok(false);
        }
        self.ordered.put(pair)?;
        Ok(true)
    }

    /// Takes the pair of a key and a number out, where it is among them.
    ///
    /// All pairs are gone over where there is no memory: for a key of more than 16 bytes, or for pairs that
    /// move into the set.
    pub fn take(&mut self, key: &[u8], num: u64)
        ensures { self.new ≡ without_pair (record { key = key.now; num = num }) self.old }
    {
        match Pair::new(self.alloc, key, num) {
            Ok(pair) => self.remove(&pair),
            Err(_) => self.keep_others(key, num),
        }
    }

    // Takes the pair out.
    fn remove(&mut self, pair: &Pair)
        ensures { self.new ≡ without_pair pair.now self.old }
    {
        self.ordered.remove(pair);
    }

    // Takes the pair of a key and a number out, without memory: it goes over all pairs.
    fn keep_others(&mut self, key: &[u8], num: u64)
        ensures { self.new ≡ without_pair (record { key = key.now; num = num }) self.old }
    {
        self.ordered.keep_others(key, num);
    }

    /// Whether a pair of another number has the key.
    pub fn has_other_with(&self, num: u64, key: &[u8]) -> bool
        ensures { result ≡ has_other_with num key.now self.now }
    {
        if self.ends_below(key) {
            return false;
        }
        let Some(first) = self.first_with(key) else {
            return false;
        };
        if first.num() != num {
            return true;
        }
        let Some(second) = self.first_from(Bound::Excluded(first)) else {
            return false;
        };
        second.key() == key
    }

    /// The pair that the search looks for, or none where there is none.
    ///
    /// It takes no memory for keys of at most 16 bytes. For a longer key all pairs are gone over where
    /// there is no memory.
    pub fn find(&self, seek: Seek<'_>) -> Option<&Pair>
        ensures { option_copied result ≡ found_pair seek.entry self.now }
    {
        match seek {
            Seek::First => self.first_from(Bound::Unbounded),
            Seek::Last => self.last_up_to(Bound::Unbounded),
            Seek::Next(pair) => self.first_from(Bound::Excluded(pair)),
            Seek::Prev(pair) => self.last_before(pair),
            Seek::Equal(key) => self.first_with(key),
            Seek::AtOrAbove(key) => self.first_at_or_above(key),
            Seek::Above(key) => self.first_above(key),
            Seek::AtOrBelow(key) => self.last_at_or_below(key),
            Seek::Below(key) => self.last_below(key),
            Seek::FirstInSet(set) => self.first_in_set(set),
            Seek::NextInSet(pair, set) => self.next_in_set(pair, set),
        }
    }

    // Whether the last pair's key is below the key, as where keys come in order.
    fn ends_below(&self, key: &[u8]) -> bool
        ensures free { IsTrue result → (num : ℕ) → has_other_with num key.now self.now ≡ false }
        ensures below { IsTrue result → (num : ℕ) → list_all (is_below (record { key = key.now; num = num })) self.now ≡ true }
    {
        match self.ordered.last() {
            Some(last) => compare_bytes(last.key(), key).is_lt(),
            None => false,
        }
    }

    // The least pair from the bound on.
    fn first_from(&self, start: Bound<&Pair>) -> Option<&Pair>
        ensures found { option_copied result ≡ least (is_from_start pair_cmp (bound_map (λ pair. pair.now) start.entry)) self.now }
        ensures ordered { IsStrictlySortedBy pair_cmp self.now }
    {
        self.ordered.first_from(start)
    }

    // The greatest pair up to the bound.
    fn last_up_to(&self, end: Bound<&Pair>) -> Option<&Pair>
        ensures { option_copied result ≡ greatest (λ pair. not (is_past_end pair_cmp (bound_map (λ other. other.now) end.entry) pair)) self.now }
    {
        self.ordered.last_up_to(end)
    }

    // The greatest pair below this one.
    fn last_before(&self, pair: &Pair) -> Option<&Pair>
        ensures { option_copied result ≡ greatest (is_below pair.now) self.now }
    {
        self.last_up_to(Bound::Excluded(pair))
    }

    // The least pair whose key is at the key or above it.
    fn first_at_or_above(&self, key: &[u8]) -> Option<&Pair>
        ensures found { option_copied result ≡ least (is_at_or_above key.now) self.now }
        ensures ordered { IsStrictlySortedBy pair_cmp self.now }
    {
        match Pair::new(self.alloc, key, 0) {
            Ok(pair) => self.first_from(Bound::Included(&pair)),
            Err(_) => self.ordered.find_at_or_above(key),
        }
    }

    // The least pair whose key is above the key.
    fn first_above(&self, key: &[u8]) -> Option<&Pair>
        ensures found { option_copied result ≡ least (is_key_above key.now) self.now }
        ensures ordered { IsStrictlySortedBy pair_cmp self.now }
    {
        match Pair::new(self.alloc, key, u64::MAX) {
            Ok(pair) => self.ordered.first_from(Bound::Excluded(&pair)),
            Err(_) => self.ordered.find_above(key),
        }
    }

    // The greatest pair whose key is at the key or below it.
    fn last_at_or_below(&self, key: &[u8]) -> Option<&Pair>
        ensures { option_copied result ≡ greatest (is_at_or_below key.now) self.now }
    {
        match self.first_above(key) {
            Some(above) => self.last_before(above),
            None => self.last_up_to(Bound::Unbounded),
        }
    }

    // The greatest pair whose key is below the key.
    fn last_below(&self, key: &[u8]) -> Option<&Pair>
        ensures { option_copied result ≡ greatest (is_key_below key.now) self.now }
    {
        match self.first_at_or_above(key) {
            Some(above) => self.last_before(above),
            None => self.last_up_to(Bound::Unbounded),
        }
    }

    // The least pair with the key.
    fn first_with(&self, key: &[u8]) -> Option<&Pair>
        ensures { option_copied result ≡ least (has_key key.now) self.now }
    {
        let Some(found) = self.first_at_or_above(key) else {
            return None;
        };
        if found.key() == key {
            Some(found)
        } else {
            None
        }
    }

    // The least pair whose key begins with the bytes.
    fn first_in_set(&self, set: &[u8]) -> Option<&Pair>
        ensures { option_copied result ≡ least (is_in_set set.now) self.now }
    {
        let Some(found) = self.first_at_or_above(set) else {
            return None;
        };
        if found.key().starts_with(set) {
            Some(found)
        } else {
            None
        }
    }

    // The least pair above this one whose key begins with the bytes.
    fn next_in_set(&self, pair: &Pair, set: &[u8]) -> Option<&Pair>
        ensures { option_copied result ≡ least (λ other. is_above pair.now other && is_in_set set.now other) self.now }
    {
        if pair.key().cmp(&set).is_lt() {
            return self.first_in_set(set);
        }
        let Some(found) = self.first_from(Bound::Excluded(pair)) else {
            return None;
        };
        if found.key().starts_with(set) {
            Some(found)
        } else {
            None
        }
    }
}
