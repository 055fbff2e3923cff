//! The split of a full inner node in three moves, before a separator is posted to one of its halves.

ghost use Rattle.std.specs.Prelude.{◌≡◌, ◌⊎◌, false, true};
ghost use Rattle.ct_node.specs.Worlds.{no_mark};
ghost use Rattle.ct_node.specs.Turns.{OnBusy, CausedTurn};
ghost use Rattle.ct_tree_laws.specs.Stands.{KeepsKeys, Turns};
ghost use Rattle.ct_tree.specs.Answers.{is_done, IsInTheWay, IsPutting};
ghost use Rattle.ct_tree.specs.Rules.{IsTurned};

use crate::descent::is_done;
use crate::split::is_full;
use ct_disk::Turn;
use ct_node::{Mark, Node, Nodes};
use ct_tree_laws::{Rise, Separator, Stage, Walk};
use std::alloc::Global;

/// Allocates the page of the right half.
pub(crate) fn allocate_above<N: Nodes>(
    walk: &Walk,
    nodes: &mut N,
    separator: Separator,
    page: u64,
) -> (Stage, Turn<()>)
    ensures turned { Turns (N.sound nodes.old) (N.sound nodes.new) walk.now (Stage.Post separator (Rise.Full page)) result.0 KeepsKeys (N.world nodes.old) (N.world nodes.new) }
    ensures rule { IsTurned result.1 walk.now (N.world nodes.old) (N.world nodes.new) (N.left nodes.old) (N.left nodes.new) (Stage.Post separator (Rise.Full page)) result.0 }
    ensures going { is_done result.1 ≡ false }
    ensures putting { IsPutting result.0 }
    ensures goes { N.goes nodes.old no_mark nodes.new }
    ensures busy { OnBusy result.1 (IsInTheWay (N.flushes nodes.old) (N.world nodes.old) walk.now.op) }
    ensures cause { CausedTurn result.1 (N.faults nodes.old) (N.faults nodes.new) (N.halted nodes.old) (N.halted nodes.new) }
{
    match nodes.fresh(walk.op) {
        Turn::Done(right) => {
            let rise = Rise::Fresh { page, right };
            return (Stage::Post { separator, rise }, Turn::More);
        }
        Turn::More => {
            let rise = Rise::Full { page };
            return (Stage::Post { separator, rise }, Turn::More);
        }
        Turn::Busy { op } => {
            let rise = Rise::Full { page };
            return (Stage::Post { separator, rise }, Turn::Busy { op });
        }
        Turn::Refused(fault) => {
            let rise = Rise::Full { page };
            return (Stage::Post { separator, rise }, Turn::Refused(fault));
        }
    }
}

/// Makes the page of the right half the operation's own too, which no other can reach: the half
/// that the separator belongs to is to stay its own after the cut.
pub(crate) fn own_right<N: Nodes>(
    walk: &Walk,
    nodes: &mut N,
    separator: Separator,
    page: u64,
    right: u64,
) -> (Stage, Turn<()>)
    ensures turned { Turns (N.sound nodes.old) (N.sound nodes.new) walk.now (Stage.Post separator (Rise.Fresh page right)) result.0 KeepsKeys (N.world nodes.old) (N.world nodes.new) }
    ensures rule { IsTurned result.1 walk.now (N.world nodes.old) (N.world nodes.new) (N.left nodes.old) (N.left nodes.new) (Stage.Post separator (Rise.Fresh page right)) result.0 }
    ensures going { is_done result.1 ≡ false }
    ensures putting { IsPutting result.0 }
    ensures goes { N.goes nodes.old no_mark nodes.new }
    ensures busy { OnBusy result.1 (IsInTheWay (N.flushes nodes.old) (N.world nodes.old) walk.now.op) }
    ensures cause { CausedTurn result.1 (N.faults nodes.old) (N.faults nodes.new) (N.halted nodes.old) (N.halted nodes.new) }
{
    let owned = nodes.own(walk.op, right);
    if !is_done(&owned) {
        let rise = Rise::Fresh { page, right };
        return (Stage::Post { separator, rise }, owned);
    }
    let rise = Rise::Split { page, right };
    (Stage::Post { separator, rise }, Turn::More)
}

/// Writes the right half.
pub(crate) fn write_above<N: Nodes>(
    walk: &Walk,
    nodes: &mut N,
    separator: Separator,
    page: u64,
    right: u64,
    upper: &mut Node,
) -> (Stage, Turn<()>)
    requires shown { N.shows nodes.old page }
    ensures turned { Turns (N.sound nodes.old) (N.sound nodes.new) walk.now (Stage.Post separator (Rise.Split page right)) result.0 KeepsKeys (N.world nodes.old) (N.world nodes.new) }
    ensures rule { IsTurned result.1 walk.now (N.world nodes.old) (N.world nodes.new) (N.left nodes.old) (N.left nodes.new) (Stage.Post separator (Rise.Split page right)) result.0 }
    ensures going { is_done result.1 ≡ false }
    ensures putting { IsPutting result.0 }
    ensures goes { N.goes nodes.old no_mark nodes.new }
    ensures busy { OnBusy result.1 (IsInTheWay (N.flushes nodes.old) (N.world nodes.old) walk.now.op) }
    ensures cause { CausedTurn result.1 (N.faults nodes.old) (N.faults nodes.new) (N.halted nodes.old) (N.halted nodes.new) }
{
    let node = nodes.node(page);
    if node.count() < 2 {
        let fault = nodes.bad(page);
        let rise = Rise::Split { page, right };
        return (Stage::Post { separator, rise }, Turn::Refused(fault));
    }
    node.upper_half(upper);
    let edited = nodes.edit(walk.op, right, upper, Mark::NONE);
    if !is_done(&edited) {
        let rise = Rise::Split { page, right };
        return (Stage::Post { separator, rise }, edited);
    }
    let rise = Rise::Cut { page, right };
    (Stage::Post { separator, rise }, Turn::More)
}

/// Cuts the left node: its right link leads to the page that was written. The half that the
/// separator belongs to is kept, and the other given back.
pub(crate) fn cut_above<N: Nodes>(
    alloc: Global,
    walk: &Walk,
    nodes: &mut N,
    separator: Separator,
    page: u64,
    right: u64,
    node: &mut Node,
) -> (Stage, Turn<()>)
    requires shown { N.shows nodes.old page }
    ensures turned { Turns (N.sound nodes.old) (N.sound nodes.new) walk.now (Stage.Post separator (Rise.Cut page right)) result.0 KeepsKeys (N.world nodes.old) (N.world nodes.new) }
    ensures rule { IsTurned result.1 walk.now (N.world nodes.old) (N.world nodes.new) (N.left nodes.old) (N.left nodes.new) (Stage.Post separator (Rise.Cut page right)) result.0 }
    ensures going { is_done result.1 ≡ false }
    ensures putting { IsPutting result.0 }
    ensures goes { N.goes nodes.old no_mark nodes.new }
    ensures busy { OnBusy result.1 (IsInTheWay (N.flushes nodes.old) (N.world nodes.old) walk.now.op) }
    ensures cause { CausedTurn result.1 (N.faults nodes.old) (N.faults nodes.new) (N.halted nodes.old) (N.halted nodes.new) }
{
    nodes.node(page).copy_into(node);
    if !is_full(node) {
        let fault = nodes.bad(page);
        let rise = Rise::Cut { page, right };
        return (Stage::Post { separator, rise }, Turn::Refused(fault));
    }
    let low = node.pair(alloc, node.count() / 2);
    node.cut(right);
    let edited = nodes.edit(walk.op, page, node, Mark::NONE);
    if !is_done(&edited) {
        let rise = Rise::Cut { page, right };
        return (Stage::Post { separator, rise }, edited);
    }
    let next = Some(Separator {
        low,
        child: right,
        left: page,
    });
    if node.covers(&separator.low) {
        nodes.free(walk.op, right);
        let rise = Rise::Held { page, next };
        return (Stage::Post { separator, rise }, Turn::More);
    }
    nodes.free(walk.op, page);
    let rise = Rise::Held { page: right, next };
    (Stage::Post { separator, rise }, Turn::More)
}
