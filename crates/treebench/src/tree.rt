//! The pairs in a tree with right links over pages in memory, one operation at a time.

ghost use Rattle.std.specs.Prelude.{IfSome};
ghost use Rattle.ct_tree.specs.Answers.{IsPair};

use crate::keys::key_of;
use ct_disk::Turn;
use ct_key::KeyBuf;
use ct_node::{Mark, MemNodes, Pair, Root, Target};
use ct_tree::{Put, Search, Seek};
use std::alloc::Global;

/// The one index.
const INDEX: Root = Root { page: 0, index: 0 };

/// How many turns an operation has at most. It visits a few pages of each level.
const TURNS: u64 = 1000;

/// Puts so many pairs, and gives their count.
pub fn put(alloc: Global, count: u32) -> Option<u64> {
    filled(alloc, count)?;
    Some(u64::from(count))
}

/// Puts so many pairs, then finds each; gives the sum of the numbers found.
pub fn put_and_get(alloc: Global, count: u32) -> Option<u64> {
    let mut nodes = filled(alloc, count)?;
    let mut sum: u64 = 0;
    for place in 0..u64::from(count) {
        let op = u64::from(count) + place;
        sum = sum.wrapping_add(get_one(alloc, &mut nodes, op, place)?);
    }
    Some(sum)
}

/// A new index with so many pairs.
fn filled(alloc: Global, count: u32) -> Option<MemNodes> {
    let mut nodes = MemNodes::new(alloc, 8).ok()?;
    for place in 0..u64::from(count) {
        put_one(alloc, &mut nodes, place)?;
    }
    Some(nodes)
}

/// The target at the pair of a place.
fn target_of(alloc: Global, place: u64) -> Option<Target>
    ensures { IfSome result IsPair }
{
    let key = KeyBuf::from_slice(alloc, &key_of(place)).ok()?;
    Some(Target::At(Pair { key, num: place }))
}

/// Puts the pair of a place, by the operation of that number.
fn put_one(alloc: Global, nodes: &mut MemNodes, place: u64) -> Option<()> {
    let target = target_of(alloc, place)?;
    let mut put = Put::new(alloc, place, INDEX, target, Mark::NONE);
    for _turn in 0..TURNS {
        match put.turn(nodes) {
            Turn::Done(()) => return Some(()),
            Turn::More => {}
            Turn::Busy { op: _ } => return None,
            Turn::Refused(_) => return None,
        }
    }
    None
}

/// Finds the pair of a place, by this operation.
fn get_one(alloc: Global, nodes: &mut MemNodes, op: u64, place: u64) -> Option<u64> {
    let target = target_of(alloc, place)?;
    let mut search = Search::new(alloc, op, INDEX, target, Seek::AtOrAbove);
    for _turn in 0..TURNS {
        match search.turn(nodes) {
            Turn::Done(found) => {
                search.end(nodes);
                return Some(found?.num);
            }
            Turn::More => {}
            Turn::Busy { op: _ } => return None,
            Turn::Refused(_) => return None,
        }
    }
    None
}
