//! The split of a full leaf in three moves: a page is allocated, the right half written into it,
//! and the left node cut.

ghost use Rattle.std.specs.Prelude.{◌≡◌, ◌⊎◌, ◌≤◌, false, true, length};
ghost use Rattle.ct_node.specs.Nodes.{IsNode};
ghost use Rattle.ct_node.specs.Worlds.{no_mark};
ghost use Rattle.ct_node.specs.Turns.{OnBusy, CausedTurn};
ghost use Rattle.ct_tree_laws.specs.Stands.{KeepsKeys, Turns};
ghost use Rattle.ct_tree.specs.Answers.{is_done, IsInTheWay, IsPutting};
ghost use Rattle.ct_tree.specs.Rules.{IsTurned, is_full};

use crate::descent::is_done;
use ct_disk::Turn;
use ct_node::{Mark, Node, Nodes};
use ct_tree_laws::{Rise, Separator, Stage, Walk};
use std::alloc::Global;

/// Allocates the page of the right half.
pub(crate) fn allocate<N: Nodes>(
    walk: &Walk,
    page: u64,
    stage: &mut Stage,
    nodes: &mut N,
) -> Turn<()>
    requires at { stage.old ≡ Stage.Full page }
    ensures turned { Turns (N.sound nodes.old) (N.sound nodes.new) walk.now (Stage.Full page) stage.new KeepsKeys (N.world nodes.old) (N.world nodes.new) }
    ensures rule { IsTurned result walk.now (N.world nodes.old) (N.world nodes.new) (N.left nodes.old) (N.left nodes.new) (Stage.Full page) stage.new }
    ensures going { is_done result ≡ false }
    ensures putting { IsPutting stage.new }
    ensures goes { N.goes nodes.old no_mark nodes.new }
    ensures busy { OnBusy result (IsInTheWay (N.flushes nodes.old) (N.world nodes.old) walk.now.op) }
    ensures cause { CausedTurn result (N.faults nodes.old) (N.faults nodes.new) (N.halted nodes.old) (N.halted nodes.new) }
{
    let right = match nodes.fresh(walk.op) {
        Turn::Done(right) => right,
        Turn::More => return Turn::More,
        Turn::Busy { op } => return Turn::Busy { op },
        Turn::Refused(fault) => return Turn::Refused(fault),
    };
    *stage = Stage::Split { page, right };
    Turn::More
}

/// Writes the right half.
pub(crate) fn write_right<N: Nodes>(
    walk: &Walk,
    page: u64,
    right: u64,
    stage: &mut Stage,
    nodes: &mut N,
    upper: &mut Node,
) -> Turn<()>
    requires at { stage.old ≡ Stage.Split page right }
    requires shown { N.shows nodes.old page }
    ensures turned { Turns (N.sound nodes.old) (N.sound nodes.new) walk.now (Stage.Split page right) stage.new KeepsKeys (N.world nodes.old) (N.world nodes.new) }
    ensures rule { IsTurned result walk.now (N.world nodes.old) (N.world nodes.new) (N.left nodes.old) (N.left nodes.new) (Stage.Split page right) stage.new }
    ensures going { is_done result ≡ false }
    ensures putting { IsPutting stage.new }
    ensures goes { N.goes nodes.old no_mark nodes.new }
    ensures busy { OnBusy result (IsInTheWay (N.flushes nodes.old) (N.world nodes.old) walk.now.op) }
    ensures cause { CausedTurn result (N.faults nodes.old) (N.faults nodes.new) (N.halted nodes.old) (N.halted nodes.new) }
{
    let node = nodes.node(page);
    if node.count() < 2 {
        return Turn::Refused(nodes.bad(page));
    }
    node.upper_half(upper);
    let edited = nodes.edit(walk.op, right, upper, Mark::NONE);
    if !is_done(&edited) {
        return edited;
    }
    *stage = Stage::Cut { page, right };
    Turn::More
}

/// Whether a node has no room for one more entry, and so has two or more.
pub(crate) fn is_full(node: &Node) -> bool
    ensures full { result ≡ is_full node.now }
    ensures enough { result ≡ true → 2 ≤ length node.now.entries }
    ensures node { IsNode node.now }
{
    let _count = node.count();
    !node.fits()
}

/// Cuts the left node, and gives it back: its right link leads to the page that was written. The
/// separator is to be posted then.
pub(crate) fn cut_left<N: Nodes>(
    alloc: Global,
    walk: &Walk,
    page: u64,
    right: u64,
    stage: &mut Stage,
    nodes: &mut N,
    node: &mut Node,
) -> Turn<()>
    requires at { stage.old ≡ Stage.Cut page right }
    requires shown { N.shows nodes.old page }
    ensures turned { Turns (N.sound nodes.old) (N.sound nodes.new) walk.now (Stage.Cut page right) stage.new KeepsKeys (N.world nodes.old) (N.world nodes.new) }
    ensures rule { IsTurned result walk.now (N.world nodes.old) (N.world nodes.new) (N.left nodes.old) (N.left nodes.new) (Stage.Cut page right) stage.new }
    ensures going { is_done result ≡ false }
    ensures putting { IsPutting stage.new }
    ensures goes { N.goes nodes.old no_mark nodes.new }
    ensures busy { OnBusy result (IsInTheWay (N.flushes nodes.old) (N.world nodes.old) walk.now.op) }
    ensures cause { CausedTurn result (N.faults nodes.old) (N.faults nodes.new) (N.halted nodes.old) (N.halted nodes.new) }
{
    nodes.node(page).copy_into(node);
    if !node.is_leaf() {
        return Turn::Refused(nodes.bad(page));
    }
    if !is_full(node) {
        return Turn::Refused(nodes.bad(page));
    }
    let low = node.pair(alloc, node.count() / 2);
    node.cut(right);
    let edited = nodes.edit(walk.op, page, node, Mark::NONE);
    if !is_done(&edited) {
        return edited;
    }
    nodes.free(walk.op, page);
    let separator = Separator {
        low,
        child: right,
        left: page,
    };
    *stage = Stage::Post {
        separator,
        rise: Rise::Root,
    };
    Turn::More
}
