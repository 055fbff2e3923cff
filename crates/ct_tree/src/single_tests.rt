//! Operations one after another: keys of each length, and leaves that takes have emptied.

use super::*;
use crate::test_tree::{Shape, Stop, TestTree, mixed};
use std::alloc::Global;
use std::test::Fail;

/// A tree of the pairs up to the last number, put in mixed order.
fn filled(alloc: Global, shape: Shape, last: u64) -> Result<TestTree, Stop> {
    let mut tree = TestTree::new(alloc, shape)?;
    for place in 0..last {
        tree.put(mixed(place, last))?;
    }
    Ok(tree)
}

/// Whether the numbers are those up to the last one, in order.
fn is_each_up_to(numbers: &[u64], last: u64) -> bool {
    numbers.len() as u64 == last && numbers.iter().copied().eq(1..=last)
}

/// Puts pairs with such keys, and reads them to the right and to the left; whether each is there.
fn stands_both_ways(alloc: Global, shape: Shape, last: u64) -> Result<(bool, bool), Stop> {
    let mut tree = filled(alloc, shape, last)?;
    let rising = tree.rising()?;
    let mut falling = tree.falling()?;
    falling.reverse();
    Ok((
        is_each_up_to(rising.as_slice(), last),
        is_each_up_to(falling.as_slice(), last),
    ))
}

#[test]
fn pairs_of_any_key_length_stand_in_order(rt: HostRuntime) -> Result<(), Fail> {
    for (key_len, alike, last) in [
        (1, 1000, 2000),
        (4, 1, 1000),
        (4, 1000, 2000),
        (128, 1, 600),
        (128, 1000, 1200),
    ] {
        let stands = stands_both_ways(rt.alloc(), Shape { key_len, alike }, last)?;
        assert_eq!(rt;
            stands,
            (true, true),
            "keys of {key_len} bytes, {alike} alike"
        );
    }
    Ok(())
}

/// Takes each pair up to the last number; how many of them were there.
fn take_all(tree: &mut TestTree, last: u64) -> Result<u64, Stop> {
    let mut taken: u64 = 0;
    for place in 0..last {
        if tree.take(last - mixed(place, last) + 1)? {
            taken = taken.wrapping_add(1);
        }
    }
    Ok(taken)
}

#[test]
fn searches_and_puts_pass_empty_leaves(rt: HostRuntime) -> Result<(), Fail> {
    let shape = Shape {
        key_len: 128,
        alike: 1,
    };
    let mut tree = filled(rt.alloc(), shape, 2000)?;
    assert_eq!(rt; take_all(&mut tree, 2000)?, 2000);
    assert!(rt; !tree.take(1000)?);
    assert_eq!(rt; tree.rising()?.as_slice(), [].as_slice());
    assert_eq!(rt; tree.falling()?.as_slice(), [].as_slice());
    for number in [1000, 1, 2000] {
        tree.put(number)?;
    }
    assert_eq!(rt; tree.rising()?.as_slice(), [1, 1000, 2000].as_slice());
    assert_eq!(rt; tree.falling()?.as_slice(), [2000, 1000, 1].as_slice());
    for (number, seek, found) in [
        (2, Seek::AtOrAbove, Some(1000)),
        (1000, Seek::AtOrAbove, Some(1000)),
        (1000, Seek::Above, Some(2000)),
        (2000, Seek::Above, None),
        (1999, Seek::AtOrBelow, Some(1000)),
        (1000, Seek::AtOrBelow, Some(1000)),
        (1000, Seek::Below, Some(1)),
        (1, Seek::Below, None),
    ] {
        assert_eq!(rt; tree.find_beside(number, seek)?, found, "{seek:?} {number}");
    }
    Ok(())
}
