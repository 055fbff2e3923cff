//! Each call once on small tables, with keys that several records have.

use crate::{Pair, Pairs, Seek};
use ct_items::NoMemory;
use std::alloc::Global;
use std::process::Abort;
use std::test::Fail;

fn pair(alloc: Global, key: &[u8], num: u64) -> Result<Pair, NoMemory> {
    Pair::new(alloc, key, num)
}

// Puts a pair that is new.
fn add(pairs: &mut Pairs, pair: Pair) -> Result<(), NoMemory> {
    if pairs.contains(&pair) {
        return Ok(());
    }
    pairs.put(pair)
}

// Puts a pair that is new unless another has its key.
fn add_alone(pairs: &mut Pairs, pair: Pair) -> Result<bool, NoMemory> {
    if pairs.contains(&pair) {
        return Ok(false);
    }
    pairs.put_alone(pair)
}

fn num_of(found: Option<&Pair>) -> Option<u64> {
    found.map(|pair| pair.num())
}

// Three records with the key `A`, put out of order.
fn three_alike(alloc: Global) -> Result<Pairs, NoMemory> {
    let mut pairs = Pairs::new(alloc);
    add(&mut pairs, pair(alloc, b"A", 2)?)?;
    add(&mut pairs, pair(alloc, b"A", 3)?)?;
    add(&mut pairs, pair(alloc, b"A", 1)?)?;
    Ok(pairs)
}

// Keys of which one begins with another.
fn four(alloc: Global) -> Result<Pairs, NoMemory> {
    let mut pairs = Pairs::new(alloc);
    add(&mut pairs, pair(alloc, b"ba", 4)?)?;
    add(&mut pairs, pair(alloc, b"ab", 2)?)?;
    add(&mut pairs, pair(alloc, b"b", 3)?)?;
    add(&mut pairs, pair(alloc, b"ab", 1)?)?;
    Ok(pairs)
}

#[test]
fn equal_keys_stand_by_number(rt: HostRuntime) -> Result<(), Fail> {
    let pairs = three_alike(rt.alloc())?;
    let first = pairs.find(Seek::First).ok_or("no first")?;
    let second = pairs.find(Seek::Next(first)).ok_or("no second")?;
    let third = pairs.find(Seek::Next(second)).ok_or("no third")?;
    assert_eq!(rt; first.num(), 1);
    assert_eq!(rt; second.num(), 2);
    assert_eq!(rt; third.num(), 3);
    assert_eq!(rt; num_of(pairs.find(Seek::Next(third))), None);
    assert_eq!(rt; num_of(pairs.find(Seek::Prev(third))), Some(2));
    Ok(())
}

#[test]
fn a_key_is_put_alone(rt: HostRuntime) -> Result<(), Fail> {
    let mut pairs = Pairs::new(rt.alloc());
    for (key, num, is_put) in [
        (b"b".as_slice(), 1, true),
        (b"c", 2, true),
        (b"b", 3, false),
        (b"a", 4, true),
        (b"c", 5, false),
    ] {
        let pair = pair(rt.alloc(), key, num)?;
        assert_eq!(rt; add_alone(&mut pairs, pair), Ok(is_put));
    }
    assert_eq!(rt; pairs.len(), 3);
    Ok(())
}

#[test]
fn each_search_finds_its_pair(rt: HostRuntime) -> Result<(), Fail> {
    let pairs = four(rt.alloc())?;
    let two = pair(rt.alloc(), b"ab", 2)?;
    let cases = [
        (Seek::First, Some(1)),
        (Seek::Last, Some(4)),
        (Seek::Next(&two), Some(3)),
        (Seek::Prev(&two), Some(1)),
        (Seek::Equal(b"ab"), Some(1)),
        (Seek::Equal(b"a"), None),
        (Seek::AtOrAbove(b"b"), Some(3)),
        (Seek::Above(b"ab"), Some(3)),
        (Seek::Above(b"ba"), None),
        (Seek::AtOrBelow(b"ab"), Some(2)),
        (Seek::AtOrBelow(b"aa"), None),
        (Seek::Below(b"ba"), Some(3)),
        (Seek::FirstInSet(b"b"), Some(3)),
        (Seek::FirstInSet(b"bb"), None),
        (Seek::NextInSet(&two, b"a"), None),
        (Seek::NextInSet(&two, b"ba"), Some(4)),
    ];
    for (seek, num) in cases {
        assert_eq!(rt; num_of(pairs.find(seek)), num);
    }
    Ok(())
}

#[test]
fn pairs_come_and_go(rt: HostRuntime) -> Result<(), Fail> {
    let mut pairs = three_alike(rt.alloc())?;
    let two = pair(rt.alloc(), b"A", 2)?;
    assert_eq!(rt; pairs.len(), 3);
    assert_eq!(rt; pairs.contains(&two), true);
    pairs.take(b"A", 2);
    assert_eq!(rt; pairs.len(), 2);
    assert_eq!(rt; pairs.contains(&two), false);
    assert_eq!(rt; num_of(pairs.find(Seek::Above(b"A"))), None);
    Ok(())
}

#[test]
fn others_with_a_key(rt: HostRuntime) -> Result<(), Fail> {
    let pairs = four(rt.alloc())?;
    assert_eq!(rt; pairs.has_other_with(1, b"ab"), true);
    assert_eq!(rt; pairs.has_other_with(9, b"b"), true);
    assert_eq!(rt; pairs.has_other_with(3, b"b"), false);
    assert_eq!(rt; pairs.has_other_with(9, b"a"), false);
    Ok(())
}

// Keys that begin alike for 8, for 16 and for 24 bytes, and one that ends where another has a zero.
#[test]
fn long_and_short_keys_stand_by_their_bytes(rt: HostRuntime) -> Result<(), Fail> {
    let keys: [&[u8]; 5] = [
        b"12345678",
        b"12345678\0",
        b"1234567890123456",
        b"123456789012345678901234",
        b"123456789012345678901235",
    ];
    let mut pairs = Pairs::new(rt.alloc());
    for (key, num) in [(4, 5), (1, 2), (3, 4), (0, 1), (2, 3)] {
        add(&mut pairs, pair(rt.alloc(), keys[key], num)?)?;
    }
    assert_eq!(rt; num_of(pairs.find(Seek::Above(keys[0]))), Some(2));
    assert_eq!(rt; num_of(pairs.find(Seek::Below(keys[2]))), Some(2));
    assert_eq!(rt; num_of(pairs.find(Seek::Equal(keys[3]))), Some(4));
    assert_eq!(rt; num_of(pairs.find(Seek::Above(keys[3]))), Some(5));
    pairs.take(keys[3], 4);
    assert_eq!(rt; num_of(pairs.find(Seek::AtOrAbove(keys[3]))), Some(5));
    assert_eq!(rt; pairs.len(), 4);
    Ok(())
}

// The pair of a key of one byte, numbered as its byte.
fn of_byte(alloc: Global, byte: u8) -> Result<Pair, NoMemory> {
    pair(alloc, &[byte], u64::from(byte))
}

fn num_of_byte(byte: Option<&u8>) -> Option<u64> {
    byte.map(|byte| u64::from(*byte))
}

// Each search around a byte finds what stands in the list, which has the bytes of all pairs in order.
fn agree_at(
    rt: &impl Abort,
    alloc: Global,
    pairs: &Pairs,
    bytes: &[u8],
    at: u8,
) -> Result<(), Fail> {
    let here = of_byte(alloc, at)?;
    let key = [at];
    let from = num_of_byte(bytes.iter().find(|byte| **byte >= at));
    let above = num_of_byte(bytes.iter().find(|byte| **byte > at));
    let up_to = num_of_byte(bytes.iter().rev().find(|byte| **byte <= at));
    let below = num_of_byte(bytes.iter().rev().find(|byte| **byte < at));
    let own = num_of_byte(bytes.iter().find(|byte| **byte == at));
    assert_eq!(rt; num_of(pairs.find(Seek::AtOrAbove(&key))), from);
    assert_eq!(rt; num_of(pairs.find(Seek::Above(&key))), above);
    assert_eq!(rt; num_of(pairs.find(Seek::Next(&here))), above);
    assert_eq!(rt; num_of(pairs.find(Seek::NextInSet(&here, b""))), above);
    assert_eq!(rt; num_of(pairs.find(Seek::AtOrBelow(&key))), up_to);
    assert_eq!(rt; num_of(pairs.find(Seek::Below(&key))), below);
    assert_eq!(rt; num_of(pairs.find(Seek::Prev(&here))), below);
    assert_eq!(rt; num_of(pairs.find(Seek::Equal(&key))), own);
    assert_eq!(rt; num_of(pairs.find(Seek::FirstInSet(&key))), own);
    assert_eq!(rt; pairs.contains(&here), own.is_some());
    Ok(())
}

fn agree(rt: &impl Abort, alloc: Global, pairs: &Pairs, bytes: &[u8]) -> Result<(), Fail> {
    assert_eq!(rt; pairs.len(), bytes.len());
    assert_eq!(rt; num_of(pairs.find(Seek::First)), num_of_byte(bytes.first()));
    assert_eq!(rt; num_of(pairs.find(Seek::Last)), num_of_byte(bytes.last()));
    for at in 1..16 {
        agree_at(rt, alloc, pairs, bytes, at)?;
    }
    Ok(())
}

#[test]
fn pairs_in_rising_order_are_found_among_others(rt: HostRuntime) -> Result<(), Fail> {
    let mut pairs = Pairs::new(rt.alloc());
    for byte in [2, 4, 6, 8, 10, 12, 14] {
        add(&mut pairs, of_byte(rt.alloc(), byte)?)?;
    }
    agree(&rt, rt.alloc(), &pairs, &[2, 4, 6, 8, 10, 12, 14])?;
    for byte in [9, 3, 13, 5] {
        add(&mut pairs, of_byte(rt.alloc(), byte)?)?;
    }
    agree(
        &rt,
        rt.alloc(),
        &pairs,
        &[2, 3, 4, 5, 6, 8, 9, 10, 12, 13, 14],
    )?;
    for byte in [8, 14, 2, 7] {
        pairs.take(&[byte], u64::from(byte));
    }
    agree(&rt, rt.alloc(), &pairs, &[3, 4, 5, 6, 9, 10, 12, 13])
}
