//! Leaves with keys of four bytes: as many pairs as there is room for, and a full one split.

ghost use Rattle.std.specs.Prelude.{◌≡◌, ◌≤◌, length, IfOk};

use super::*;
use ct_key::KeyBuf;
use ct_page::PAGE_SIZE;
use std::alloc::Global;
use std::process::Abort;
use std::test::Fail;

/// A pair whose key has these four bytes.
fn pair_of(alloc: Global, key: [u8; 4], num: u64) -> Result<Pair, ct_items::NoMemory>
    ensures { IfOk result (λ pair. length pair.key ≡ 4) }
{
    let mut bytes = KeyBuf::new(alloc);
    bytes.push(key[0])?;
    bytes.push(key[1])?;
    bytes.push(key[2])?;
    bytes.push(key[3])?;
    Ok(Pair { key: bytes, num })
}

/// Puts a pair in where it may stand, and says whether it did.
fn put_where_it_fits(node: &mut Node, pair: &Pair) -> bool
    requires { length pair.now.key ≡ 4 }
{
    if node.is_leaf()
        && node.key_len() == 4
        && node.fits()
        && node.covers(pair)
        && !node.has(pair)
    {
        node.put(pair);
        return true;
    }
    false
}

fn full_leaf(alloc: Global) -> Result<Node, ct_items::NoMemory> {
    let mut leaf = Node::new(3, 1, true, 4);
    for n in 0..400u64 {
        let pair = pair_of(alloc, [0, 0, 0, 7], 1000 - n)?;
        let _was_put = put_where_it_fits(&mut leaf, &pair);
    }
    Ok(leaf)
}

#[test]
fn a_leaf_takes_as_many_pairs_as_it_has_room_for(
    rt: HostRuntime,
) -> Result<(), ct_items::NoMemory> {
    let mut leaf = full_leaf(rt.alloc())?;
    assert_eq!(rt; leaf.count(), 328);
    assert_eq!(rt; leaf.fits(), false);
    let least = pair_of(rt.alloc(), [0, 0, 0, 7], 673)?;
    let past = pair_of(rt.alloc(), [0, 0, 0, 7], 672)?;
    assert_eq!(rt; leaf.take(&past), false);
    assert_eq!(rt; leaf.take(&least), true);
    assert_eq!(rt; leaf.count(), 327);
    Ok(())
}

#[test]
fn a_full_leaf_is_split_at_its_middle_pair(rt: HostRuntime) -> Result<(), ct_items::NoMemory> {
    let mut leaf = full_leaf(rt.alloc())?;
    let mut right = Node::new(0, 0, false, 1);
    if leaf.count() >= 2 {
        leaf.upper_half(&mut right);
        leaf.cut(9);
    }
    assert_eq!(rt; leaf.count(), 164);
    assert_eq!(rt; right.count(), 164);
    assert_eq!(rt; right.file(), 3);
    assert_eq!(rt; right.index(), 1);
    assert_eq!(rt; leaf.right(), 9);
    let middle = pair_of(rt.alloc(), [0, 0, 0, 7], 837)?;
    assert_eq!(rt; right.covers(&middle), true);
    assert_eq!(rt; right.next_place(&Target::Last), Place::End);
    assert_eq!(rt; leaf.next_place(&Target::Last), Place::Right(9));
    assert_eq!(rt; leaf.next_place(&Target::At(middle)), Place::Right(9));
    Ok(())
}

/// The page of the left half of a full leaf.
fn half_page(alloc: Global) -> Result<[u8; PAGE_SIZE], ct_items::NoMemory> {
    let mut leaf = full_leaf(alloc)?;
    if leaf.count() >= 2 {
        leaf.cut(9);
    }
    let mut page = [7; PAGE_SIZE];
    leaf.to_page(513, &mut page);
    Ok(page)
}

#[test]
fn a_half_is_read_from_its_page_as_it_was_written(
    rt: HostRuntime,
) -> Result<(), ct_items::NoMemory> {
    let page = half_page(rt.alloc())?;
    assert_eq!(rt; &page[..8], [5, 0, 3, 0, 1, 0, 164, 0].as_slice());
    assert_eq!(rt;
        &page[8..25],
        [1, 2, 0, 0, 0, 0, 0, 0, 9, 0, 0, 0, 0, 0, 0, 0, 4].as_slice()
    );
    assert_eq!(rt; &page[128..141], [0; 13].as_slice());
    assert_eq!(rt;
        &page[141..154],
        [1, 0, 0, 0, 7, 0, 0, 0, 0, 0, 0, 3, 69].as_slice()
    );
    assert_eq!(rt;
        &page[154..166],
        [0, 0, 0, 7, 0, 0, 0, 0, 0, 0, 2, 161].as_slice()
    );
    assert_eq!(rt; &page[2122..2134], [0; 12].as_slice());
    let read = Node::from_page(&page).expect(&rt, "a node");
    assert_eq!(rt; read.count(), 164);
    assert_eq!(rt; read.next_place(&Target::Last), Place::Right(9));
    Ok(())
}
