//! Reads that fail, and damaged pages.

ghost use Rattle.std.specs.Prelude.{IfOk};
ghost use Rattle.ct_tree.specs.Schedules.{IsReady};

use super::*;
use crate::test_tree::{Shape, Stop, TestTree};
use crate::tests::pairs;
use ct_disk::{HaltCause, StepFault, Turn};
use ct_node::{Node, Nodes};
use std::alloc::Global;
use std::test::Fail;

/// Keys so long that 27 pairs fill a leaf.
const SHAPE: Shape = Shape {
    key_len: 128,
    alike: 1,
};

/// What a caller does with a put or a take that was refused.
#[derive(Clone, Copy, Debug)]
enum Caller {
    /// Gives it its turn again: it has kept its latches and its place.
    GoesOn,
    /// Gives its latches back and drops it: no link leads to the half of a split that it may have
    /// written, so all pairs stand.
    GivesUp,
}

/// A put or a take.
#[derive(Clone, Copy)]
enum Kind {
    Put,
    Take,
}

fn new_change(tree: &TestTree, kind: Kind, op: u64, number: u64) -> Result<Program, Stop>
    ensures { IfOk result IsReady }
{
    match kind {
        Kind::Put => Ok(tree.new_put(op, number)?),
        Kind::Take => Ok(tree.new_take(op, number)?),
    }
}

/// Gives turns to a program until it ends or a call is refused; whether one was.
fn is_refused(tree: &mut TestTree, program: &mut Program) -> Result<bool, Stop>
    requires { IsReady program.old }
    ensures { IsReady program.new }
{
    match tree.run(program) {
        Ok(_answer) => Ok(false),
        Err(Stop::Refused(StepFault::Read)) => Ok(true),
        Err(other) => Err(other),
    }
}

/// A tree of the pairs from 2 to the last one, of which the lowest leaf is full.
#[derive(Drop)]
struct FullLeaf {
    tree: TestTree,
    last: u64,
}

impl FullLeaf {
    /// Such a tree, where the call with this number is to fail.
    fn new(alloc: Global, last: u64, call: u64) -> Result<FullLeaf, Stop> {
        let mut tree = TestTree::new(alloc, SHAPE)?;
        tree.nodes.fail_at(call)?;
        tree.put_down(2, last)?;
        Ok(FullLeaf { tree, last })
    }

    /// Tests that exactly the pairs from this one to the last stand.
    fn check_from(&mut self, number: u64) -> Result<(), Stop> {
        let first = self.tree.find_beside(0, Seek::Above)?;
        let last = self.tree.find_beside(self.last, Seek::AtOrBelow)?;
        let count = pairs(&mut self.tree.nodes) as u64;
        if (first, last) == (Some(number), Some(self.last))
            && count.checked_add(number) == self.last.checked_add(1)
        {
            return Ok(());
        }
        Err(Stop::Wrong { number })
    }

    /// Puts or takes the pair 1. Whether a call of it was refused.
    fn change(&mut self, kind: Kind, caller: Caller) -> Result<bool, Stop> {
        let op = self.tree.new_op();
        let mut change = new_change(&self.tree, kind, op, 1)?;
        self.run(&mut change, op, kind, caller)
    }

    /// Gives turns to this put or take of the pair 1, also where a call of it is refused.
    fn run(
        &mut self,
        change: &mut Program,
        op: u64,
        kind: Kind,
        caller: Caller,
    ) -> Result<bool, Stop>
        requires { IsReady change.old }
    {
        if !is_refused(&mut self.tree, change)? {
            return Ok(false);
        }
        match caller {
            Caller::GoesOn => {
                self.tree.run(change)?;
            }
            Caller::GivesUp => self.change_anew(op, kind)?,
        }
        Ok(true)
    }

    /// Gives the latches of a put or take back, and lets another operation do its work.
    fn change_anew(&mut self, op: u64, kind: Kind) -> Result<(), Stop> {
        self.tree.nodes.free_all(op);
        match kind {
            Kind::Put => {
                self.check_from(2)?;
                self.tree.put(1)
            }
            Kind::Take => {
                self.check_from(1)?;
                if self.tree.take(1)? {
                    return Ok(());
                }
                Err(Stop::Wrong { number: 1 })
            }
        }
    }

    /// Finds a pair in the leaf beside that of a number. Whether a call of the search was refused:
    /// then it was ended, and another one found the pair.
    fn find(&mut self, number: u64, seek: Seek, wanted: u64) -> Result<bool, Stop> {
        let mut found = self.tree.find_beside(number, seek);
        let refused = found == Err(Stop::Refused(StepFault::Read));
        if refused {
            found = self.tree.find_beside(number, seek);
        }
        if found? == Some(wanted) {
            return Ok(refused);
        }
        Err(Stop::Wrong { number })
    }

    /// Puts the pair, so that the leaf is split at the pair 15, searches over both halves and takes
    /// the pair again. Whether a call was refused.
    fn is_any_refused(&mut self, caller: Caller) -> Result<bool, Stop> {
        let mut refused = self.change(Kind::Put, caller)?;
        refused |= self.find(14, Seek::Above, 15)?;
        refused |= self.find(15, Seek::Below, 14)?;
        refused |= self.change(Kind::Take, caller)?;
        Ok(refused)
    }

    /// Tests that all pairs stand, and no latch on the two leaves.
    fn check_free(&mut self) -> Result<(), Stop> {
        for number in [14, 15] {
            if !self.tree.take(number)? {
                return Err(Stop::Wrong { number });
            }
            self.tree.put(number)?;
        }
        self.check_from(2)
    }
}

/// How many calls the pages of such a tree have had, by halves.
fn calls_before(alloc: Global, last: u64) -> u64 {
    let mut calls: u64 = 0;
    for power in 0..12u32 {
        let more = calls.saturating_add(2048 >> power);
        if FullLeaf::new(alloc, last, more).is_err() {
            calls = more;
        }
    }
    calls
}

/// Makes each call fail that comes after the leaf is full, one at a time; how many there are.
fn refuse_each(alloc: Global, last: u64, before: u64, caller: Caller) -> Result<u64, Stop> {
    for call in 1..100 {
        let mut leaf = FullLeaf::new(alloc, last, before.saturating_add(call))?;
        if !leaf.is_any_refused(caller)? {
            return Ok(call - 1);
        }
        leaf.check_free()?;
    }
    Err(Stop::Endless)
}

/// The first leaf is the root, so a new root is made; the second one is below a root.
#[test]
fn after_any_read_that_fails_all_pairs_stand(rt: HostRuntime) -> Result<(), Fail> {
    for last in [28, 42] {
        let before = calls_before(rt.alloc(), last);
        for caller in [Caller::GoesOn, Caller::GivesUp] {
            let calls = refuse_each(rt.alloc(), last, before, caller)?;
            assert!(rt; 30 < calls, "{calls} calls after {last} pairs, {caller:?}");
        }
    }
    Ok(())
}

/// An operation.
#[derive(Clone, Copy, Debug)]
enum Call {
    Put(u64),
    Take(u64),
    Find(u64, Seek),
}

/// Operations on the leaf in page 1.
const CALLS: [Call; 6] = [
    Call::Find(5, Seek::AtOrAbove),
    Call::Find(5, Seek::Above),
    Call::Find(5, Seek::AtOrBelow),
    Call::Find(5, Seek::Below),
    Call::Put(0),
    Call::Take(5),
];

/// What stops an operation, if anything does.
fn stop_of(tree: &mut TestTree, call: Call) -> Option<Stop> {
    match call {
        Call::Put(number) => tree.put(number).err(),
        Call::Take(number) => tree.take(number).err(),
        Call::Find(number, seek) => tree.find_beside(number, seek).err(),
    }
}

/// What stops an operation on the leaf in page 1 once this page is damaged, and then one on the other
/// leaf. The root is page 3.
fn stops_at(
    alloc: Global,
    page: u64,
    node: &Node,
    call: Call,
) -> Result<(Option<Stop>, Option<Stop>), Stop> {
    let mut tree = TestTree::new(alloc, SHAPE)?;
    tree.put_down(1, 28)?;
    tree.nodes.damage(page, node);
    let first = stop_of(&mut tree, call);
    Ok((first, stop_of(&mut tree, Call::Find(28, Seek::AtOrAbove))))
}

#[test]
fn a_damaged_page_halts_what_comes_to_it(rt: HostRuntime) -> Result<(), Fail> {
    for (page, leaf, key_len) in [
        (3, false, 128),
        (3, false, 64),
        (3, true, 64),
        (1, false, 128),
        (1, true, 64),
    ] {
        let halted = Some(Stop::Refused(StepFault::Halted(HaltCause::BadPage(page))));
        for call in CALLS {
            let stops = stops_at(rt.alloc(), page, &Node::new(0, 0, leaf, key_len), call)?;
            assert_eq!(rt; stops, (halted, halted), "{call:?}, page {page}");
        }
    }
    Ok(())
}

/// The node of a page.
fn node_at(tree: &mut TestTree, page: u64) -> Result<Node, Stop> {
    let mut node = Node::new(0, 0, true, 1);
    match tree.nodes.look(0, page) {
        Turn::Done(()) => tree.nodes.node(page).copy_into(&mut node),
        _ => return Err(Stop::Endless),
    }
    Ok(node)
}

/// The first leaf begins elsewhere than the root says: it is the second one once more.
#[test]
fn a_leaf_with_another_low_bound_halts_what_comes_to_it(rt: HostRuntime) -> Result<(), Fail> {
    let mut tree = TestTree::new(rt.alloc(), SHAPE)?;
    tree.put_down(1, 28)?;
    let second = node_at(&mut tree, 2)?;
    let halted = Some(Stop::Refused(StepFault::Halted(HaltCause::BadPage(1))));
    for call in CALLS {
        let stops = stops_at(rt.alloc(), 1, &second, call)?;
        assert_eq!(rt; stops, (halted, halted), "{call:?}");
    }
    Ok(())
}

/// Operations on a pair that the first leaf has lost.
const CALLS_BEHIND: [Call; 6] = [
    Call::Find(10, Seek::AtOrAbove),
    Call::Find(10, Seek::Above),
    Call::Find(10, Seek::AtOrBelow),
    Call::Find(10, Seek::Below),
    Call::Put(10),
    Call::Take(10),
];

/// The first leaf was cut, and its right link leads to its own page.
#[test]
fn a_leaf_that_links_to_itself_halts_what_goes_on_from_it(rt: HostRuntime) -> Result<(), Fail> {
    let mut tree = TestTree::new(rt.alloc(), SHAPE)?;
    tree.put_down(1, 28)?;
    let mut first = node_at(&mut tree, 1)?;
    assert!(rt; first.count() >= 2);
    first.cut(1);
    let halted = Some(Stop::Refused(StepFault::Halted(HaltCause::BadPage(1))));
    for call in CALLS_BEHIND {
        let stops = stops_at(rt.alloc(), 1, &first, call)?;
        assert_eq!(rt; stops, (halted, halted), "{call:?}");
    }
    Ok(())
}
