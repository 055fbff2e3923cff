//! A new root over the two halves of the old one: written while the definition page is the
//! operation's own, and then named there.

ghost use Rattle.std.specs.Prelude.{◌≡◌, ◌≤◌, ◌⊎◌, false, true, length, replicate};
ghost use Rattle.ct_node.specs.Worlds.{no_mark};
ghost use Rattle.ct_node.specs.Turns.{OnBusy, CausedTurn};
ghost use Rattle.ct_tree_laws.specs.Stands.{KeepsKeys, node_over, Turns};
ghost use Rattle.ct_tree.specs.Answers.{is_done, IsInTheWay, IsPutting};
ghost use Rattle.ct_tree.specs.Rules.{IsTurned};

use crate::descent::is_done;
use ct_disk::Turn;
use ct_key::KeyBuf;
use ct_node::{Mark, Node, Nodes, Pair};
use ct_tree_laws::{Rise, Separator, Stage, Walk};
use std::alloc::Global;

/// Makes the definition page the operation's own.
pub(crate) fn own_definition<N: Nodes>(
    walk: &Walk,
    nodes: &mut N,
    separator: Separator,
) -> (Stage, Turn<()>)
    ensures turned { Turns (N.sound nodes.old) (N.sound nodes.new) walk.now (Stage.Post separator Rise.Again) result.0 KeepsKeys (N.world nodes.old) (N.world nodes.new) }
    ensures rule { IsTurned result.1 walk.now (N.world nodes.old) (N.world nodes.new) (N.left nodes.old) (N.left nodes.new) (Stage.Post separator Rise.Again) result.0 }
    ensures going { is_done result.1 ≡ false }
    ensures putting { IsPutting result.0 }
    ensures goes { N.goes nodes.old no_mark nodes.new }
    ensures busy { OnBusy result.1 (IsInTheWay (N.flushes nodes.old) (N.world nodes.old) walk.now.op) }
    ensures cause { CausedTurn result.1 (N.faults nodes.old) (N.faults nodes.new) (N.halted nodes.old) (N.halted nodes.new) }
{
    let owned = nodes.own(walk.op, walk.at.page);
    if !is_done(&owned) {
        let rise = Rise::Again;
        return (Stage::Post { separator, rise }, owned);
    }
    let rise = Rise::Named;
    (Stage::Post { separator, rise }, Turn::More)
}

/// Reads the root again. Where it is another one by now, the definition page is given back, and
/// the separator posted to the level above the page that was split.
pub(crate) fn name_again<N: Nodes>(
    walk: &Walk,
    nodes: &mut N,
    separator: Separator,
) -> (Stage, Turn<()>)
    ensures turned { Turns (N.sound nodes.old) (N.sound nodes.new) walk.now (Stage.Post separator Rise.Named) result.0 KeepsKeys (N.world nodes.old) (N.world nodes.new) }
    ensures rule { IsTurned result.1 walk.now (N.world nodes.old) (N.world nodes.new) (N.left nodes.old) (N.left nodes.new) (Stage.Post separator Rise.Named) result.0 }
    ensures going { is_done result.1 ≡ false }
    ensures putting { IsPutting result.0 }
    ensures goes { N.goes nodes.old no_mark nodes.new }
    ensures busy { OnBusy result.1 (IsInTheWay (N.flushes nodes.old) (N.world nodes.old) walk.now.op) }
    ensures cause { CausedTurn result.1 (N.faults nodes.old) (N.faults nodes.new) (N.halted nodes.old) (N.halted nodes.new) }
{
    match nodes.root(walk.op, walk.at) {
        Turn::Done(page) => {
            if page == separator.left {
                let rise = Rise::Grow;
                return (Stage::Post { separator, rise }, Turn::More);
            }
            nodes.free(walk.op, walk.at.page);
            let rise = Rise::Down { page, above: None };
            return (Stage::Post { separator, rise }, Turn::More);
        }
        Turn::More => {
            let rise = Rise::Named;
            return (Stage::Post { separator, rise }, Turn::More);
        }
        Turn::Busy { op } => {
            let rise = Rise::Named;
            return (Stage::Post { separator, rise }, Turn::Busy { op });
        }
        Turn::Refused(fault) => {
            let rise = Rise::Named;
            return (Stage::Post { separator, rise }, Turn::Refused(fault));
        }
    }
}

/// Allocates the page of the new root.
pub(crate) fn allocate_root<N: Nodes>(
    walk: &Walk,
    nodes: &mut N,
    separator: Separator,
) -> (Stage, Turn<()>)
    ensures turned { Turns (N.sound nodes.old) (N.sound nodes.new) walk.now (Stage.Post separator Rise.Grow) result.0 KeepsKeys (N.world nodes.old) (N.world nodes.new) }
    ensures rule { IsTurned result.1 walk.now (N.world nodes.old) (N.world nodes.new) (N.left nodes.old) (N.left nodes.new) (Stage.Post separator Rise.Grow) result.0 }
    ensures going { is_done result.1 ≡ false }
    ensures putting { IsPutting result.0 }
    ensures goes { N.goes nodes.old no_mark nodes.new }
    ensures busy { OnBusy result.1 (IsInTheWay (N.flushes nodes.old) (N.world nodes.old) walk.now.op) }
    ensures cause { CausedTurn result.1 (N.faults nodes.old) (N.faults nodes.new) (N.halted nodes.old) (N.halted nodes.new) }
{
    match nodes.fresh(walk.op) {
        Turn::Done(root) => {
            let rise = Rise::Crown { root };
            return (Stage::Post { separator, rise }, Turn::More);
        }
        Turn::More => {
            let rise = Rise::Grow;
            return (Stage::Post { separator, rise }, Turn::More);
        }
        Turn::Busy { op } => {
            let rise = Rise::Grow;
            return (Stage::Post { separator, rise }, Turn::Busy { op });
        }
        Turn::Refused(fault) => {
            let rise = Rise::Grow;
            return (Stage::Post { separator, rise }, Turn::Refused(fault));
        }
    }
}

/// Writes the new root: its first entry leads to the old root, and its second to the page that was
/// split off.
pub(crate) fn write_root<N: Nodes>(
    alloc: Global,
    walk: &Walk,
    nodes: &mut N,
    separator: Separator,
    root: u64,
) -> (Stage, Turn<()>)
    requires shown { N.shows nodes.old separator.left }
    ensures turned { Turns (N.sound nodes.old) (N.sound nodes.new) walk.now (Stage.Post separator (Rise.Crown root)) result.0 KeepsKeys (N.world nodes.old) (N.world nodes.new) }
    ensures rule { IsTurned result.1 walk.now (N.world nodes.old) (N.world nodes.new) (N.left nodes.old) (N.left nodes.new) (Stage.Post separator (Rise.Crown root)) result.0 }
    ensures going { is_done result.1 ≡ false }
    ensures putting { IsPutting result.0 }
    ensures goes { N.goes nodes.old no_mark nodes.new }
    ensures busy { OnBusy result.1 (IsInTheWay (N.flushes nodes.old) (N.world nodes.old) walk.now.op) }
    ensures cause { CausedTurn result.1 (N.faults nodes.old) (N.faults nodes.new) (N.halted nodes.old) (N.halted nodes.new) }
{
    let node = nodes.node(separator.left);
    if node.key_len() != separator.low.key.as_slice().len() {
        let fault = nodes.bad(separator.left);
        let rise = Rise::Crown { root };
        return (Stage::Post { separator, rise }, Turn::Refused(fault));
    }
    let mut new = node_over(alloc, node, separator.left);
    if new.has(&separator.low) {
        let fault = nodes.bad(separator.left);
        let rise = Rise::Crown { root };
        return (Stage::Post { separator, rise }, Turn::Refused(fault));
    }
    new.post(&separator.low, separator.child);
    let _count = new.count();
    let edited = nodes.edit(walk.op, root, &new, Mark::NONE);
    if !is_done(&edited) {
        let rise = Rise::Crown { root };
        return (Stage::Post { separator, rise }, edited);
    }
    let rise = Rise::Crowned { root };
    (Stage::Post { separator, rise }, Turn::More)
}

/// An inner node of the same index over one page, open to both sides.
fn node_over(alloc: Global, node: &Node, page: u64) -> Node
    ensures { result ≡ node_over node.now page }
{
    let _count = node.count();
    let mut over = Node::new(node.file(), node.index(), false, node.key_len() as u16);
    over.post(&zeros(alloc, node.key_len()), page);
    over
}

/// The pair at which a node with an open low bound begins.
fn zeros(alloc: Global, key_len: usize) -> Pair
    requires { key_len ≤ 128 }
    ensures { result ≡ record { key = replicate key_len 0; num = 0 } }
{
    match KeyBuf::from_slice(alloc, &[0; 128][..key_len]) {
        Ok(key) => Pair { key, num: 0 },
        Err(_refused) => unreachable!(),
    }
}

/// Names the new root, and gives the definition page back.
pub(crate) fn name_root<N: Nodes>(
    walk: &Walk,
    nodes: &mut N,
    separator: Separator,
    root: u64,
) -> (Stage, Turn<()>)
    ensures turned { Turns (N.sound nodes.old) (N.sound nodes.new) walk.now (Stage.Post separator (Rise.Crowned root)) result.0 KeepsKeys (N.world nodes.old) (N.world nodes.new) }
    ensures rule { IsTurned result.1 walk.now (N.world nodes.old) (N.world nodes.new) (N.left nodes.old) (N.left nodes.new) (Stage.Post separator (Rise.Crowned root)) result.0 }
    ensures going { is_done result.1 ≡ false }
    ensures putting { IsPutting result.0 }
    ensures goes { N.goes nodes.old no_mark nodes.new }
    ensures busy { OnBusy result.1 (IsInTheWay (N.flushes nodes.old) (N.world nodes.old) walk.now.op) }
    ensures cause { CausedTurn result.1 (N.faults nodes.old) (N.faults nodes.new) (N.halted nodes.old) (N.halted nodes.new) }
{
    let named = nodes.set_root(walk.op, walk.at, root);
    if !is_done(&named) {
        let rise = Rise::Crowned { root };
        return (Stage::Post { separator, rise }, named);
    }
    nodes.free(walk.op, walk.at.page);
    (Stage::Start, Turn::More)
}
