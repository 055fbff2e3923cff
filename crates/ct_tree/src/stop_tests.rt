//! Operations that stop after each of their turns, with others beside them.

ghost use Rattle.ct_tree.specs.Schedules.{IsReady};
ghost use Rattle.ct_tree.specs.Answers.{IsSearchingBy};

use super::*;
use crate::test_tree::{Shape, Stop, TestTree};
use ct_disk::Turn;
use ct_node::Target;
use std::alloc::Global;
use std::test::Fail;

/// Keys so long that 27 pairs fill a leaf.
const SHAPE: Shape = Shape {
    key_len: 128,
    alike: 1,
};

/// The number of the greatest pair.
const LAST: u64 = 1000;

/// Gives so many turns to a program.
fn give_turns(tree: &mut TestTree, program: &mut Program, turns: usize)
    requires { IsReady program.old }
{
    for _turn in 0..turns {
        let _answer = tree.turn(program);
    }
}

/// Whether a put into a full leaf that has stopped after so many turns is in the way of another one,
/// and the number of the last pair, as a search in the leaf to the right finds it. Of 41 pairs in
/// falling order the first split took 14 to the right.
fn beside_a_stopped_put(alloc: Global, turns: usize) -> Result<(bool, Option<u64>), Stop> {
    let mut tree = TestTree::new(alloc, SHAPE)?;
    tree.put_down(LAST - 40, LAST)?;
    let op = tree.new_op();
    let mut stopped = tree.new_put(op, 500)?;
    give_turns(&mut tree, &mut stopped, turns);
    put_beside(&mut tree, op)
}

/// Whether the operation is in the way of a put into the lowest leaf, and the number of the last pair.
fn put_beside(tree: &mut TestTree, op: u64) -> Result<(bool, Option<u64>), Stop> {
    let is_barred = tree.put(499) == Err(Stop::Busy { op });
    let last = tree.find(Target::Last, Seek::AtOrBelow)?;
    Ok((is_barred, last.map(|pair| pair.num)))
}

#[test]
fn a_put_bars_another_while_it_has_the_leaf(rt: HostRuntime) -> Result<(), Fail> {
    let has_leaf = [
        false, false, false, false, true, true, true, true, false, false,
    ];
    for turns in 0..has_leaf.len() {
        let beside = beside_a_stopped_put(rt.alloc(), turns)?;
        assert_eq!(rt;
            beside,
            (has_leaf[turns], Some(LAST)),
            "after {turns} turns"
        );
    }
    Ok(())
}

/// Gives a search so many turns, or fewer where it ends.
fn search_on(tree: &mut TestTree, search: &mut Search, turns: usize)
    requires { IsSearchingBy search.old.seek search.old.stage }
    ensures { IsSearchingBy search.new.seek search.new.stage }
{
    for _turn in 0..turns {
        if let Turn::Done(_found) = tree.turn_search(search) {
            return;
        }
    }
}

/// A tree of the pairs 100, 200 .. 6000, of which those from 2000 to 4700 are taken again, so that
/// whole leaves have none.
fn emptied(alloc: Global) -> Result<TestTree, Stop> {
    let mut tree = TestTree::new(alloc, SHAPE)?;
    for below in 0..60 {
        tree.put(6000 - below * 100)?;
    }
    for more in 0..28 {
        tree.take(2000 + more * 100)?;
    }
    Ok(tree)
}

/// Puts pairs between 1900 and 4800, each unless an operation is in the way: into leaves without a
/// pair, and so many into the leaf to their left that it is split. The least and the greatest one that
/// stand then.
fn put_between(tree: &mut TestTree) -> Result<(u64, u64), Stop> {
    let mut least = 4800;
    let mut greatest = 1900;
    for place in 0..45 {
        let number = match place {
            0 => 4750,
            1 => 3950,
            2 => 2050,
            more => 1898 + more,
        };
        match tree.put(number) {
            Ok(()) => {
                least = number.min(least);
                greatest = number.max(greatest);
            }
            Err(Stop::Busy { op: _ }) => {}
            Err(other) => return Err(other),
        }
    }
    Ok((least, greatest))
}

/// What a search finds past leaves without a pair that has stopped after so many turns while pairs
/// are put there, and what it should find.
fn find_beside_puts(
    alloc: Global,
    from: u64,
    seek: Seek,
    turns: usize,
) -> Result<(Option<u64>, u64), Stop> {
    let mut tree = emptied(alloc)?;
    let target = tree.target(from)?;
    let mut search = tree.new_search(target, seek);
    search_on(&mut tree, &mut search, turns);
    find_after_puts(&mut tree, &mut search, seek)
}

/// Puts the pairs, and then lets the search end.
fn find_after_puts(
    tree: &mut TestTree,
    search: &mut Search,
    seek: Seek,
) -> Result<(Option<u64>, u64), Stop>
    requires { IsSearchingBy search.old.seek search.old.stage }
{
    let (least, greatest) = put_between(tree)?;
    let found = tree.run_search(search)?.map(|pair| pair.num);
    match seek {
        Seek::Above => Ok((found, least)),
        _ => Ok((found, greatest)),
    }
}

#[test]
fn a_search_beside_puts_finds_the_nearest_pair(rt: HostRuntime) -> Result<(), Fail> {
    for (from, seek) in [(1900, Seek::Above), (4800, Seek::Below)] {
        for turns in 0..24usize {
            let (found, nearest) = find_beside_puts(rt.alloc(), from, seek, turns)?;
            assert_eq!(rt;
                found,
                Some(nearest),
                "{seek:?} {from}, after {turns} turns"
            );
        }
    }
    Ok(())
}
