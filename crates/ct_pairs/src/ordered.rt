//! `Ordered`, pairs in order: an ordered set, and behind it a queue of pairs that came in rising order.
//! A pair above all others is pushed behind them. Before one comes or goes among those of the queue, all
//! up to it move into the set, each once: a call takes time by the logarithm of the count, averaged over calls.

ghost use Rattle.std.specs.Prelude.{◌≡◌, ◌+◌, ◌<◌, ◌++◌, ◌∷◌, ℕ, [], true, false, not, length, IsTrue, IfNone, IfSome, OnOk, OnErr};
ghost use Rattle.std.specs.Option.{option_copied};
ghost use Rattle.std.specs.List.{All, list_all};
ghost use Rattle.std.specs.List.Sorted.{IsStrictlySortedBy};
ghost use Rattle.std.specs.Ordering.{is_lt};
ghost use Rattle.std.specs.Range.Bound.{bound_map};
ghost use Rattle.std.specs.BTreeMap.Range.{is_from_start, is_past_end};
ghost use Rattle.std.specs.VecDeque.{deque_len};
ghost use Rattle.ct_definitions.specs.Pairs.{with_pair, pair_cmp};
ghost use Rattle.ct_pairs.specs.Finds.{has_pair, without_pair, have_short_nums, least, greatest, is_above, is_below, is_at_or_above, is_key_above};

use crate::pair::Pair;
use ct_items::NoMemory;
use std::alloc::Global;
use std::collections::{BTreeSet, VecDeque};
use std::marker::Model;
use std::ops::Bound;

/// Pairs in order, of which those in the queue stand above those in the set.
#[derive(Drop)]
pub(crate) struct Ordered {
    set: BTreeSet<Pair, Global>,
    tail: VecDeque<Pair, Global>,
}

impl Model for Ordered {
    ghost use Rattle.std.specs.Prelude.{◌≡◌, ◌++◌, List, true};
    ghost use Rattle.std.specs.List.Sorted.{IsStrictlySortedBy};
    ghost use Rattle.ct_definitions.specs.Pairs.{Pair, pair_cmp};
    ghost use Rattle.ct_pairs.specs.Finds.{have_short_nums};

    ghost Value = { List Pair };

    ghost view = { λ ordered. ordered.set.keys ++ ordered.tail.items };

    ghost invariant = { λ ordered. IsStrictlySortedBy pair_cmp (ordered.set.keys ++ ordered.tail.items)
        × (have_short_nums (ordered.set.keys ++ ordered.tail.items) ≡ true) };
}

impl Ordered {
    /// No pairs.
    pub(crate) fn new(alloc: Global) -> Ordered
        ensures { result ≡ [] }
    {
        Ordered {
            set: BTreeSet::new(alloc),
            tail: VecDeque::new(alloc),
        }
    }

    /// How many pairs there are.
    pub(crate) fn len(&self) -> usize
        ensures { result ≡ length self.now }
    {
        self.set.len() + self.tail.len()
    }

    /// Whether the pair is among them.
    pub(crate) fn contains(&self, pair: &Pair) -> bool
        ensures { result ≡ has_pair pair.now self.now }
    {
        match self.first_from(Bound::Included(pair)) {
            Some(found) => pair == found,
            None => false,
        }
    }

    /// Puts a pair that is not among them at its place.
    pub(crate) fn put(&mut self, pair: Pair) -> Result<(), NoMemory>
        requires { has_pair pair self.old ≡ false }
        ensures ok { OnOk result (self.new ≡ with_pair pair self.old) }
        ensures err { OnErr result (self.new ≡ self.old) }
    {
        // Read for its range: each number here has 64 bits, on which the searches above a key rest.
        let _num = pair.num();
        if self.ends_below(&pair) {
            return self.push(pair);
        }
        move_up_to(&mut self.set, &mut self.tail, &pair)?;
        match self.set.insert(pair) {
            Ok(_new) => Ok(()),
            Err(_refused) => Err(NoMemory),
        }
    }

    /// Puts a pair that is above all others behind them.
    pub(crate) fn push(&mut self, pair: Pair) -> Result<(), NoMemory>
        requires new { has_pair pair self.old ≡ false }
        requires below { list_all (is_below pair) self.old ≡ true }
        ensures ok { OnOk result (self.new ≡ with_pair pair self.old) }
        ensures err { OnErr result (self.new ≡ self.old) }
    {
        // Read for its range, as in `put`.
        let _num = pair.num();
        push(&mut self.tail, pair)
    }

    /// Takes the pair out, where it is among them. Where there is no memory, it goes over all pairs.
    pub(crate) fn remove(&mut self, pair: &Pair)
        ensures { self.new ≡ without_pair pair.now self.old }
    {
        match move_up_to(&mut self.set, &mut self.tail, pair) {
            Ok(()) => {
                let _found = self.set.remove(pair);
            }
            Err(_) => self.keep_others(pair.key(), pair.num()),
        }
    }

    /// Takes the pair of a key and a number out, without memory: it goes over all pairs.
    pub(crate) fn keep_others(&mut self, key: &[u8], num: u64)
        ensures { self.new ≡ without_pair (record { key = key.now; num = num }) self.old }
    {
        self.set.retain(|pair| !pair.is_of(key, num));
        self.tail.retain(|pair| !pair.is_of(key, num));
    }

    /// The last pair.
    pub(crate) fn last(&self) -> Option<&Pair>
        ensures some { IfSome result (λ last. All (λ pair. is_lt (pair_cmp last.now pair) ≡ false) self.now) }
        ensures among { IfSome result (λ last. has_pair last.now self.now ≡ true) }
        ensures none { IfNone result (self.now ≡ []) }
    {
        match self.tail.back() {
            Some(last) => Some(last),
            None => self.set.last(),
        }
    }

    // Whether each pair is below this one.
    fn ends_below(&self, pair: &Pair) -> bool
        ensures { result ≡ list_all (is_below pair.now) self.now }
    {
        match self.last() {
            Some(last) => last < pair,
            None => true,
        }
    }

    /// The least pair from the bound on.
    pub(crate) fn first_from(&self, start: Bound<&Pair>) -> Option<&Pair>
        ensures found { option_copied result ≡ least (is_from_start pair_cmp (bound_map (λ pair. pair.now) start.entry)) self.now }
        ensures ordered { IsStrictlySortedBy pair_cmp self.now }
        ensures short { have_short_nums self.now ≡ true }
    {
        match self.set.range((start, Bound::Unbounded)).next() {
            Some(first) => Some(first),
            None => tail_from(&self.tail, start),
        }
    }

    /// The greatest pair up to the bound.
    pub(crate) fn last_up_to(&self, end: Bound<&Pair>) -> Option<&Pair>
        ensures { option_copied result ≡ greatest (λ pair. not (is_past_end pair_cmp (bound_map (λ other. other.now) end.entry) pair)) self.now }
    {
        match tail_up_to(&self.tail, end) {
            Some(last) => Some(last),
            None => self.set.range((Bound::Unbounded, end)).next_back(),
        }
    }

    /// The least pair whose key is at the key or above it, without memory: it goes over all pairs.
    pub(crate) fn find_at_or_above(&self, key: &[u8]) -> Option<&Pair>
        ensures found { option_copied result ≡ least (is_at_or_above key.now) self.now }
        ensures ordered { IsStrictlySortedBy pair_cmp self.now }
    {
        match set_at_or_above(&self.set, key) {
            Some(found) => Some(found),
            None => tail_at_or_above(&self.tail, key),
        }
    }

    /// The least pair whose key is above the key, without memory: it goes over all pairs.
    pub(crate) fn find_above(&self, key: &[u8]) -> Option<&Pair>
        ensures found { option_copied result ≡ least (is_key_above key.now) self.now }
        ensures ordered { IsStrictlySortedBy pair_cmp self.now }
    {
        match set_above(&self.set, key) {
            Some(found) => Some(found),
            None => tail_above(&self.tail, key),
        }
    }
}

// Puts a pair behind the others.
fn push(tail: &mut VecDeque<Pair, Global>, pair: Pair) -> Result<(), NoMemory>
    ensures ok { OnOk result (tail.new.items ≡ tail.old.items ++ pair ∷ []) }
    ensures err { OnErr result (tail.new.items ≡ tail.old.items) }
{
    match tail.push_back(pair) {
        Ok(()) => Ok(()),
        Err(_refused) => Err(NoMemory),
    }
}

// Moves the pairs up to this one from the front of the queue to the end of the set.
fn move_up_to(
    set: &mut BTreeSet<Pair, Global>,
    tail: &mut VecDeque<Pair, Global>,
    pair: &Pair,
) -> Result<(), NoMemory>
    requires { IsStrictlySortedBy pair_cmp (set.old.keys ++ tail.old.items) }
    ensures same { set.new.keys ++ tail.new.items ≡ set.old.keys ++ tail.old.items }
    ensures above { OnOk result (list_all (is_above pair.now) tail.new.items ≡ true) }
{
    while begins_up_to(tail, pair) {
        move_first(set, tail)?;
    }
    Ok(())
}

// Whether the first pair of the queue is this one or below it.
fn begins_up_to(tail: &VecDeque<Pair, Global>, pair: &Pair) -> bool
    requires { IsStrictlySortedBy pair_cmp tail.now.items }
    ensures some { IsTrue result → 0 < deque_len tail.now }
    ensures up_to { IsTrue result → list_all (is_above pair.now) tail.now.items ≡ false }
    ensures above { result ≡ false → list_all (is_above pair.now) tail.now.items ≡ true }
{
    match tail.front() {
        Some(first) => first <= pair,
        None => false,
    }
}

// Moves the first pair of the queue to the end of the set. Where there is no memory, it stays.
fn move_first(
    set: &mut BTreeSet<Pair, Global>,
    tail: &mut VecDeque<Pair, Global>,
) -> Result<(), NoMemory>
    requires ordered { IsStrictlySortedBy pair_cmp (set.old.keys ++ tail.old.items) }
    requires some { 0 < deque_len tail.old }
    ensures same { set.new.keys ++ tail.new.items ≡ set.old.keys ++ tail.old.items }
    ensures moved { OnOk result (deque_len tail.new + 1 ≡ deque_len tail.old) }
{
    let Some(first) = tail.pop_front() else {
        return Ok(());
    };
    match set.insert(first) {
        Ok(_new) => Ok(()),
        Err(refused) => {
            tail.push_front_reserved(refused.value);
            Err(NoMemory)
        }
    }
}

// The least pair of the queue from the bound on.
fn tail_from<'a>(tail: &'a VecDeque<Pair, Global>, start: Bound<&Pair>) -> Option<&'a Pair>
    requires { IsStrictlySortedBy pair_cmp tail.now.items }
    ensures { option_copied result ≡ least (is_from_start pair_cmp (bound_map (λ pair. pair.now) start.entry)) tail.now.items }
{
    let at = tail.partition_point(|pair| !is_from(start, pair));
    tail.get(at)
}

// The greatest pair of the queue up to the bound.
fn tail_up_to<'a>(tail: &'a VecDeque<Pair, Global>, end: Bound<&Pair>) -> Option<&'a Pair>
    requires { IsStrictlySortedBy pair_cmp tail.now.items }
    ensures { option_copied result ≡ greatest (λ pair. not (is_past_end pair_cmp (bound_map (λ other. other.now) end.entry) pair)) tail.now.items }
{
    let past = tail.partition_point(|pair| !is_past(end, pair));
    if past == 0 {
        return None;
    }
    tail.get(past - 1)
}

// Whether the pair is at the bound or behind it, where what begins there begins.
fn is_from(start: Bound<&Pair>, pair: &Pair) -> bool
    ensures { result ≡ is_from_start pair_cmp (bound_map (λ other. other.now) start.entry) pair.now }
{
    match start {
        Bound::Included(first) => first <= pair,
        Bound::Excluded(before) => before < pair,
        Bound::Unbounded => true,
    }
}

// Whether the pair is behind the bound, where what ends there ends.
fn is_past(end: Bound<&Pair>, pair: &Pair) -> bool
    ensures { result ≡ is_past_end pair_cmp (bound_map (λ other. other.now) end.entry) pair.now }
{
    match end {
        Bound::Included(last) => last < pair,
        Bound::Excluded(behind) => behind <= pair,
        Bound::Unbounded => false,
    }
}

// The least pair of the set whose key is at the key or above it.
fn set_at_or_above<'a>(set: &'a BTreeSet<Pair, Global>, key: &[u8]) -> Option<&'a Pair>
    ensures { option_copied result ≡ least (is_at_or_above key.now) set.now.keys }
{
    set.iter().find(|pair| key.cmp(&pair.key()).is_le())
}

// The least pair of the queue whose key is at the key or above it.
fn tail_at_or_above<'a>(tail: &'a VecDeque<Pair, Global>, key: &[u8]) -> Option<&'a Pair>
    ensures { option_copied result ≡ least (is_at_or_above key.now) tail.now.items }
{
    tail.iter().find(|pair| key.cmp(&pair.key()).is_le())
}

// The least pair of the set whose key is above the key.
fn set_above<'a>(set: &'a BTreeSet<Pair, Global>, key: &[u8]) -> Option<&'a Pair>
    ensures { option_copied result ≡ least (is_key_above key.now) set.now.keys }
{
    set.iter().find(|pair| key.cmp(&pair.key()).is_lt())
}

// The least pair of the queue whose key is above the key.
fn tail_above<'a>(tail: &'a VecDeque<Pair, Global>, key: &[u8]) -> Option<&'a Pair>
    ensures { option_copied result ≡ least (is_key_above key.now) tail.now.items }
{
    tail.iter().find(|pair| key.cmp(&pair.key()).is_lt())
}
