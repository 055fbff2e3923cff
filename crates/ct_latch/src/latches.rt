//! The table of latches. It is a list in order, in which a node is found by halves.

ghost use Rattle.std.specs.Prelude.{◌≡◌, ℕ, ◌+◌, ◌≤◌, ◌<◌, [], ◌==◌, not, false, true, length, find, filter, option_map, OnOk, OnErr, drop, slice_get, vec_len, vec_capacity};
ghost use Rattle.std.specs.List.{insert, prefix_len};
ghost use Rattle.std.specs.Option.{option_map_or};
ghost use Rattle.ct_latch.specs.Latches.{comes_before, IsInOrder, is_of, bars, answer_by, with_hold, with_share};

use crate::hold::{Held, Hold};
use ct_items::NoMemory;
use std::alloc::Global;
use std::marker::Model;

/// Which operation holds which node. Contracts see the list of holds, by node and then by
/// operation, and how many more there is room for.
///
/// A look-up reads about `log2 n` of `n` holds and then those of its node. A new hold and a given
/// back one move the holds behind it, 24 bytes each. Only `reserve` takes memory.
#[derive(Drop)]
pub struct Latches {
    holds: Vec<Hold>,
}

impl Model for Latches {
    ghost use Rattle.std.specs.Prelude.{◌-◌, vec_len, vec_capacity};
    ghost use Rattle.ct_latch.specs.Latches.{Table, IsInOrder};

    ghost Value = { Table };

    ghost view = { λ latches. record { holds = latches.holds.items; spare = vec_capacity latches.holds - vec_len latches.holds } };

    ghost invariant = { λ latches. IsInOrder latches.holds.items };
}

impl Latches {
    /// A table without a hold.
    pub fn new(alloc: Global) -> Latches
        ensures { result.holds ≡ [] }
    {
        Latches {
            holds: Vec::new(alloc),
        }
    }

    /// The holds, by rising node and then by operation.
    pub fn holds(&self) -> &[Hold]
        ensures holds { result.now ≡ self.now.holds }
        ensures order { IsInOrder result.now }
    {
        self.holds.as_slice()
    }

    /// Makes room for `n` more holds.
    pub fn reserve(&mut self, n: usize) -> Result<(), NoMemory>
        ensures ok { OnOk result (n ≤ self.new.spare) }
        ensures err { OnErr result (self.new.spare ≡ self.old.spare) }
        ensures holds { self.new.holds ≡ self.old.holds }
    {
        self.holds.reserve(n)?;
        Ok(())
    }

    /// Lets an operation share a node, unless another has it for itself.
    pub fn try_share(&mut self, node: u64, op: u64) -> Result<(), Held>
        requires { 1 ≤ self.old.spare }
        ensures answer { result ≡ answer_by (find (bars node op false) self.old.holds) }
        ensures ok { OnOk result (self.new.holds ≡ with_share node op self.old.holds) }
        ensures err { OnErr result (self.new.holds ≡ self.old.holds) }
        ensures room { self.new.spare + length self.new.holds ≡ self.old.spare + length self.old.holds }
    {
        if let Some(op) = barring_op(self.holds.as_slice(), node, op, false) {
            return Err(Held { op });
        }
        let place = place_of(self.holds.as_slice(), node, op);
        if !is_at(self.holds.as_slice(), place, node, op) {
            insert_reserved(
                &mut self.holds,
                place,
                Hold {
                    node,
                    op,
                    own: false,
                },
            );
        }
        Ok(())
    }

    /// Lets an operation have a node for itself, unless another holds it. A hold that the operation
    /// shared becomes its own.
    pub fn try_own(&mut self, node: u64, op: u64) -> Result<(), Held>
        requires { 1 ≤ self.old.spare }
        ensures answer { result ≡ answer_by (find (bars node op true) self.old.holds) }
        ensures ok { OnOk result (self.new.holds ≡ with_hold (record { node = node; op = op; own = true }) self.old.holds) }
        ensures err { OnErr result (self.new.holds ≡ self.old.holds) }
        ensures room { self.new.spare + length self.new.holds ≡ self.old.spare + length self.old.holds }
    {
        if let Some(op) = barring_op(self.holds.as_slice(), node, op, true) {
            return Err(Held { op });
        }
        let place = place_of(self.holds.as_slice(), node, op);
        let hold = Hold {
            node,
            op,
            own: true,
        };
        if is_at(self.holds.as_slice(), place, node, op) {
            self.holds[place] = hold;
        } else {
            insert_reserved(&mut self.holds, place, hold);
        }
        Ok(())
    }

    /// Gives back what an operation holds on a node.
    pub fn release(&mut self, node: u64, op: u64)
        ensures holds { self.new.holds ≡ filter (λ hold. not (is_of node op hold)) self.old.holds }
        ensures room { self.new.spare + length self.new.holds ≡ self.old.spare + length self.old.holds }
    {
        let place = place_of(self.holds.as_slice(), node, op);
        if is_at(self.holds.as_slice(), place, node, op) {
            let _given_back = self.holds.remove(place);
        }
    }

    /// Gives back all that an operation holds.
    pub fn release_all(&mut self, op: u64)
        ensures holds { self.new.holds ≡ filter (λ hold. not (hold.op == op)) self.old.holds }
        ensures room { self.new.spare + length self.new.holds ≡ self.old.spare + length self.old.holds }
    {
        self.holds.retain(|hold| hold.op != op);
    }
}

/// The operation of the first hold that bars an operation from a node.
fn barring_op(holds: &[Hold], node: u64, op: u64, own: bool) -> Option<u64>
    requires { IsInOrder holds.now }
    ensures { result ≡ option_map (λ hold. hold.op) (find (bars node op own) holds.now) }
{
    let first = place_of(holds, node, 0);
    let rest = rest_from(holds, first);
    for hold in rest {
        if hold.node != node {
            return None;
        }
        if hold.op != op && (own || hold.own) {
            return Some(hold.op);
        }
    }
    None
}

/// The holds from a place on.
fn rest_from(holds: &[Hold], place: usize) -> &[Hold]
    requires { place ≤ length holds.now }
    ensures { result.now ≡ drop place holds.now }
{
    &holds[place..]
}

/// The place of the first hold that does not come before those of a node and an operation.
fn place_of(holds: &[Hold], node: u64, op: u64) -> usize
    requires { IsInOrder holds.now }
    ensures within { result ≤ length holds.now }
    ensures place { result ≡ prefix_len (comes_before node op) holds.now }
{
    holds.partition_point(
        |hold: &Hold| -> bool
            ensures { result ≡ comes_before node op hold.now }
        { hold.node < node || hold.node == node && hold.op < op },
    )
}

/// Whether the hold at a place is an operation's on a node.
fn is_at(holds: &[Hold], place: usize, node: u64, op: u64) -> bool
    ensures { result ≡ option_map_or (is_of node op) (slice_get holds.now place) false }
{
    match holds.get(place) {
        Some(hold) => hold.node == node && hold.op == op,
        None => false,
    }
}

/// Puts a hold in at a place, for which there is room.
fn insert_reserved(holds: &mut Vec<Hold>, place: usize, hold: Hold)
    requires place { place ≤ vec_len holds.old }
    requires room { vec_len holds.old < vec_capacity holds.old }
    ensures items { holds.new.items ≡ insert holds.old.items place hold }
    ensures capacity { vec_capacity holds.new ≡ vec_capacity holds.old }
{
    match holds.insert(place, hold) {
        Ok(()) => {}
        Err(_refused) => unreachable!(),
    }
}
