//! The way from the root to the leaf of a target.

ghost use Rattle.std.specs.Prelude.{◌≡◌, ◌==◌, ◌&&◌, ℕ, List, IfSome, Some, false, true, length};
ghost use Rattle.ct_node.specs.Turns.{OnDone, OnBusy, CausedTurn, LeavesLess};
ghost use Rattle.ct_node.specs.Worlds.{no_mark};
ghost use Rattle.ct_tree.specs.Moves.{looked_at};
ghost use Rattle.ct_tree.specs.Roles.{HasRole, Arrives};
ghost use Rattle.ct_tree_laws.specs.Stands.{Turns, KeepsKeys};
ghost use Rattle.ct_tree.specs.Answers.{is_done, IsInTheWay, IsPutting, IsTaking, IsFinding, IsSearching, answer_with, is_for};
ghost use Rattle.ct_tree.specs.Rules.{IsTurned, leads_to};

use ct_disk::Turn;
use ct_node::{Node, Nodes, Pair, Place, Reach};
use ct_tree_laws::{Stage, Walk};
use std::alloc::Global;

/// Whether a turn has ended its call.
pub(crate) fn is_done(turn: &Turn<()>) -> bool
    ensures { result ≡ is_done turn.now }
{
    match turn {
        Turn::Done(()) => true,
        Turn::More => false,
        Turn::Busy { op: _ } => false,
        Turn::Refused(_) => false,
    }
}

/// Looks at a page, if there is one to be looked at. A node that is outside its role is refused.
pub(crate) fn visit<N: Nodes>(op: u64, page: Option<u64>, reach: &Reach, nodes: &mut N) -> Turn<()>
    ensures shown { OnDone result (λ _. IfSome page (N.shows nodes.new)) }
    ensures role { OnDone result (λ _. HasRole page reach.now (N.world nodes.old)) }
    ensures sound { (lost : List ℕ) → N.sound nodes.old lost → HasRole page reach.now (N.world nodes.old) → N.sound nodes.new lost }
    ensures goes { N.goes nodes.old no_mark nodes.new }
    ensures world { N.world nodes.new ≡ N.world nodes.old }
    ensures busy { OnBusy result (λ other. N.flushes nodes.old ≡ Some other) }
    ensures flushes { OnDone result (λ _. N.flushes nodes.new ≡ N.flushes nodes.old) }
    ensures left { LeavesLess result (N.left nodes.old) (N.left nodes.new) }
    ensures cause { CausedTurn result (N.faults nodes.old) (N.faults nodes.new) (N.halted nodes.old) (N.halted nodes.new) }
{
    let Some(page) = page else {
        return Turn::Done(());
    };
    let seen = nodes.look(op, page);
    if !is_done(&seen) {
        return seen;
    }
    if !nodes.node(page).is_in_role(reach) {
        return Turn::Refused(nodes.bad(page));
    }
    seen
}

/// Reads the root.
pub(crate) fn start<N: Nodes>(
    walk: &Walk,
    stage: &mut Stage,
    reach: &mut Reach,
    nodes: &mut N,
) -> Turn<()>
    requires at { stage.old ≡ Stage.Start }
    ensures turned { Turns (N.sound nodes.old) (N.sound nodes.new) walk.now Stage.Start stage.new KeepsKeys (N.world nodes.old) (N.world nodes.new) }
    ensures rule { IsTurned result walk.now (N.world nodes.old) (N.world nodes.new) (N.left nodes.old) (N.left nodes.new) Stage.Start stage.new }
    ensures going { is_done result ≡ false }
    ensures putting { IsPutting stage.new }
    ensures taking { IsTaking stage.new }
    ensures searching { (above : _) → IsSearching above stage.new }
    ensures finding { IsFinding stage.new }
    ensures goes { N.goes nodes.old no_mark nodes.new }
    ensures busy { OnBusy result (IsInTheWay (N.flushes nodes.old) (N.world nodes.old) walk.now.op) }
    ensures cause { CausedTurn result (N.faults nodes.old) (N.faults nodes.new) (N.halted nodes.old) (N.halted nodes.new) }
    ensures arrives { Arrives result walk.now (N.world nodes.old) Stage.Start stage.new reach.old reach.new }
{
    let root = match nodes.root(walk.op, walk.at) {
        Turn::Done(page) => page,
        Turn::More => return Turn::More,
        Turn::Busy { op } => return Turn::Busy { op },
        Turn::Refused(fault) => return Turn::Refused(fault),
    };
    *reach = Reach::root(walk.at, &walk.target);
    *stage = Stage::Down { page: root };
    Turn::More
}

/// Goes on from a page: right, down, or to a latch on the leaf that it is.
pub(crate) fn descend<N: Nodes>(
    alloc: Global,
    walk: &Walk,
    page: u64,
    stage: &mut Stage,
    reach: &mut Reach,
    nodes: &mut N,
) -> Turn<()>
    requires at { stage.old ≡ Stage.Down page }
    requires shown { N.shows nodes.old page }
    ensures turned { Turns (N.sound nodes.old) (N.sound nodes.new) walk.now (Stage.Down page) stage.new KeepsKeys (N.world nodes.old) (N.world nodes.new) }
    ensures rule { IsTurned result walk.now (N.world nodes.old) (N.world nodes.new) (N.left nodes.old) (N.left nodes.new) (Stage.Down page) stage.new }
    ensures going { is_done result ≡ false }
    ensures putting { IsPutting stage.new }
    ensures taking { IsTaking stage.new }
    ensures searching { (above : _) → IsSearching above stage.new }
    ensures finding { IsFinding stage.new }
    ensures goes { N.goes nodes.old no_mark nodes.new }
    ensures busy { OnBusy result (IsInTheWay (N.flushes nodes.old) (N.world nodes.old) walk.now.op) }
    ensures cause { CausedTurn result (N.faults nodes.old) (N.faults nodes.new) (N.halted nodes.old) (N.halted nodes.new) }
    ensures arrives { Arrives result walk.now (N.world nodes.old) (Stage.Down page) stage.new reach.old reach.new }
{
    let node = nodes.node(page);
    if node.is_past(&walk.target) {
        let right = node.right();
        if right == page {
            return Turn::Refused(nodes.bad(page));
        }
        node.come_right(alloc, reach);
        *stage = Stage::Down { page: right };
        return Turn::More;
    }
    if node.is_leaf() {
        reach.leaf = Some(true);
        *stage = Stage::Leaf { page };
        return Turn::More;
    }
    let place = node.place_below(&walk.target);
    let Some(below) = node.child(place) else {
        return Turn::Refused(nodes.bad(page));
    };
    if below == page {
        return Turn::Refused(nodes.bad(page));
    }
    node.come_below(alloc, place, reach);
    *stage = Stage::Down { page: below };
    Turn::More
}

/// Whether a walk goes on to this page.
pub(crate) fn leads_to(place: Place, page: u64) -> bool
    ensures { result ≡ leads_to page place }
{
    match place {
        Place::Right(right) => return right == page,
        Place::Down(below) => return below == page,
        Place::Here(_) => return false,
        Place::End => return false,
    }
}

/// Makes the leaf that was found the operation's own.
pub(crate) fn own_leaf<N: Nodes>(
    walk: &Walk,
    page: u64,
    stage: &mut Stage,
    nodes: &mut N,
) -> Turn<()>
    requires at { stage.old ≡ Stage.Leaf page }
    ensures turned { Turns (N.sound nodes.old) (N.sound nodes.new) walk.now (Stage.Leaf page) stage.new KeepsKeys (N.world nodes.old) (N.world nodes.new) }
    ensures rule { IsTurned result walk.now (N.world nodes.old) (N.world nodes.new) (N.left nodes.old) (N.left nodes.new) (Stage.Leaf page) stage.new }
    ensures going { is_done result ≡ false }
    ensures putting { IsPutting stage.new }
    ensures taking { IsTaking stage.new }
    ensures goes { N.goes nodes.old no_mark nodes.new }
    ensures busy { OnBusy result (IsInTheWay (N.flushes nodes.old) (N.world nodes.old) walk.now.op) }
    ensures cause { CausedTurn result (N.faults nodes.old) (N.faults nodes.new) (N.halted nodes.old) (N.halted nodes.new) }
{
    let owned = nodes.own(walk.op, page);
    if !is_done(&owned) {
        return owned;
    }
    *stage = Stage::Held { page };
    Turn::More
}

/// Whether a node is a leaf that a pair may stand in.
pub(crate) fn is_for(node: &Node, pair: &Pair) -> bool
    ensures { result ≡ is_for node.now pair.now }
{
    node.is_leaf() && node.key_len() == pair.key.as_slice().len() && node.covers(pair)
}

/// One turn on the way to a leaf that is to be the operation's own.
pub(crate) fn find_leaf<N: Nodes>(
    alloc: Global,
    walk: &Walk,
    stage: &mut Stage,
    reach: &mut Reach,
    nodes: &mut N,
) -> Turn<()>
    requires finding { IsFinding stage.old }
    requires shown { IfSome (looked_at stage.old) (N.shows nodes.old) }
    ensures turned { Turns (N.sound nodes.old) (N.sound nodes.new) walk.now stage.old stage.new KeepsKeys (N.world nodes.old) (N.world nodes.new) }
    ensures rule { IsTurned result walk.now (N.world nodes.old) (N.world nodes.new) (N.left nodes.old) (N.left nodes.new) stage.old stage.new }
    ensures going { is_done result ≡ false }
    ensures taking { IsTaking stage.new }
    ensures goes { N.goes nodes.old no_mark nodes.new }
    ensures busy { OnBusy result (IsInTheWay (N.flushes nodes.old) (N.world nodes.old) walk.now.op) }
    ensures cause { CausedTurn result (N.faults nodes.old) (N.faults nodes.new) (N.halted nodes.old) (N.halted nodes.new) }
    ensures arrives { Arrives result walk.now (N.world nodes.old) stage.old stage.new reach.old reach.new }
{
    match *stage {
        Stage::Start => start(walk, stage, reach, nodes),
        Stage::Down { page } => descend(alloc, walk, page, stage, reach, nodes),
        Stage::Leaf { page } => own_leaf(walk, page, stage, nodes),
        Stage::Held { page: _ } => unreachable!(),
        Stage::Full { page: _ } => unreachable!(),
        Stage::Split { page: _, right: _ } => unreachable!(),
        Stage::Cut { page: _, right: _ } => unreachable!(),
        Stage::Share { page: _, above: _ } => unreachable!(),
        Stage::Shared { page: _, above: _ } => unreachable!(),
        Stage::SharedLeft { page: _ } => unreachable!(),
        Stage::Left {
            low: _,
            or_at: _,
            way: _,
        } => unreachable!(),
        Stage::Post {
            separator: _,
            rise: _,
        } => unreachable!(),
        Stage::Ended => unreachable!(),
    }
}

/// The answer of a turn, with what a call that has ended tells.
pub(crate) fn answer_with<T: Drop>(turn: Turn<()>, told: T) -> Turn<T>
    ensures { result ≡ answer_with turn told }
{
    match turn {
        Turn::Done(()) => return Turn::Done(told),
        Turn::More => return Turn::More,
        Turn::Busy { op } => return Turn::Busy { op },
        Turn::Refused(fault) => return Turn::Refused(fault),
    }
}
