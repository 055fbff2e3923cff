//! Posting the separator of a split to the level above: the node there found, made the operation's
//! own, split where it is full, and written.

ghost use Rattle.std.specs.Prelude.{ℕ, ◌≡◌, ◌⊎◌, ◌==◌, ◌&&◌, not, length, IfSome, false, true};
ghost use Rattle.ct_node.specs.declared.target.Target.TheVariants.{At};
ghost use Rattle.ct_node.specs.Nodes.{is_within};
ghost use Rattle.ct_node.specs.Places.{next_place};
ghost use Rattle.ct_node.specs.Worlds.{World, Holds, page_at, no_mark};
ghost use Rattle.ct_node.specs.Turns.{OnBusy, CausedTurn};
ghost use Rattle.ct_tree_laws.specs.declared.walk.Walk.{Walk};
ghost use Rattle.ct_tree_laws.specs.Stands.{Stands, KeepsKeys, after_post, Turns};
ghost use Rattle.ct_tree.specs.Answers.{is_done, is_above_for, IsInTheWay, IsPutting, IsPosting};
ghost use Rattle.ct_tree.specs.Rules.{IsTurned, GoesToward, leaves_room};
ghost use Rattle.ct_tree.specs.Moves.{looked_at, looked_in};
ghost use Rattle.ct_tree.specs.Roles.{Follows};

use crate::crown::{allocate_root, name_again, name_root, own_definition, write_root};
use crate::descent::{is_done, leads_to};
use crate::roles::{Trail, Ways, way_of};
use crate::split_above::{allocate_above, cut_above, own_right, write_above};
use ct_disk::Turn;
use ct_node::{Mark, Node, Nodes, Pair, Place, Target};
use ct_tree_laws::{Rise, Separator, Stage, Walk};
use std::alloc::Global;
use std::mem::replace;

/// One turn of a put that posts a separator, and the ways to its page and to the page above.
pub(crate) fn step_up<N: Nodes>(
    alloc: Global,
    walk: &Walk,
    stage: &mut Stage,
    ways: &mut Ways,
    nodes: &mut N,
    node: &mut Node,
) -> Turn<()>
    requires at { IsPosting stage.old }
    requires shown { IfSome (looked_at stage.old) (N.shows nodes.old) }
    ensures turned { Turns (N.sound nodes.old) (N.sound nodes.new) walk.now stage.old stage.new KeepsKeys (N.world nodes.old) (N.world nodes.new) }
    ensures rule { IsTurned result walk.now (N.world nodes.old) (N.world nodes.new) (N.left nodes.old) (N.left nodes.new) stage.old stage.new }
    ensures going { is_done result ≡ false }
    ensures putting { IsPutting stage.new }
    ensures goes { N.goes nodes.old no_mark nodes.new }
    ensures busy { OnBusy result (IsInTheWay (N.flushes nodes.old) (N.world nodes.old) walk.now.op) }
    ensures cause { CausedTurn result (N.faults nodes.old) (N.faults nodes.new) (N.halted nodes.old) (N.halted nodes.new) }
    ensures follows { Follows result walk.now (N.world nodes.old) stage.old stage.new ways.old ways.new }
{
    let trail = Trail::of(stage);
    let on = way_of(alloc, walk, stage, nodes);
    let Stage::Post { separator, rise } = replace(stage, Stage::Ended) else {
        unreachable!();
    };
    let (to, turn) = post(alloc, walk, nodes, separator, rise, node);
    *stage = to;
    ways.follow(walk, trail, &turn, stage, on);
    turn
}

/// The turn of a put that posts a separator.
fn post<N: Nodes>(
    alloc: Global,
    walk: &Walk,
    nodes: &mut N,
    separator: Separator,
    rise: Rise,
    node: &mut Node,
) -> (Stage, Turn<()>)
    requires shown { IfSome (looked_in separator rise) (N.shows nodes.old) }
    ensures turned { Turns (N.sound nodes.old) (N.sound nodes.new) walk.now (Stage.Post separator rise) result.0 KeepsKeys (N.world nodes.old) (N.world nodes.new) }
    ensures rule { IsTurned result.1 walk.now (N.world nodes.old) (N.world nodes.new) (N.left nodes.old) (N.left nodes.new) (Stage.Post separator rise) result.0 }
    ensures going { is_done result.1 ≡ false }
    ensures putting { IsPutting result.0 }
    ensures goes { N.goes nodes.old no_mark nodes.new }
    ensures busy { OnBusy result.1 (IsInTheWay (N.flushes nodes.old) (N.world nodes.old) walk.now.op) }
    ensures cause { CausedTurn result.1 (N.faults nodes.old) (N.faults nodes.new) (N.halted nodes.old) (N.halted nodes.new) }
{
    match rise {
        Rise::Root => return read_root(walk, nodes, separator),
        Rise::Down { page, above } => return find_above(walk, nodes, separator, page, above),
        Rise::Above { page } => return own_above(walk, nodes, separator, page),
        Rise::Held { page, next } => return post_held(walk, nodes, separator, page, next, node),
        Rise::Full { page } => return allocate_above(walk, nodes, separator, page),
        Rise::Fresh { page, right } => return own_right(walk, nodes, separator, page, right),
        Rise::Split { page, right } => return write_above(
            walk, nodes, separator, page, right, node,
        ),
        Rise::Cut { page, right } => return cut_above(
            alloc, walk, nodes, separator, page, right, node,
        ),
        Rise::Again => return own_definition(walk, nodes, separator),
        Rise::Named => return name_again(walk, nodes, separator),
        Rise::Grow => return allocate_root(walk, nodes, separator),
        Rise::Crown { root } => return write_root(alloc, walk, nodes, separator, root),
        Rise::Crowned { root } => return name_root(walk, nodes, separator, root),
    }
}

/// Reads the root, which may be the page that was split.
pub(crate) fn read_root<N: Nodes>(
    walk: &Walk,
    nodes: &mut N,
    separator: Separator,
) -> (Stage, Turn<()>)
    ensures turned { Turns (N.sound nodes.old) (N.sound nodes.new) walk.now (Stage.Post separator Rise.Root) result.0 KeepsKeys (N.world nodes.old) (N.world nodes.new) }
    ensures rule { IsTurned result.1 walk.now (N.world nodes.old) (N.world nodes.new) (N.left nodes.old) (N.left nodes.new) (Stage.Post separator Rise.Root) result.0 }
    ensures going { is_done result.1 ≡ false }
    ensures putting { IsPutting result.0 }
    ensures goes { N.goes nodes.old no_mark nodes.new }
    ensures busy { OnBusy result.1 (IsInTheWay (N.flushes nodes.old) (N.world nodes.old) walk.now.op) }
    ensures cause { CausedTurn result.1 (N.faults nodes.old) (N.faults nodes.new) (N.halted nodes.old) (N.halted nodes.new) }
{
    match nodes.root(walk.op, walk.at) {
        Turn::Done(page) => {
            if page == separator.left {
                let rise = Rise::Again;
                return (Stage::Post { separator, rise }, Turn::More);
            }
            let rise = Rise::Down { page, above: None };
            return (Stage::Post { separator, rise }, Turn::More);
        }
        Turn::More => {
            let rise = Rise::Root;
            return (Stage::Post { separator, rise }, Turn::More);
        }
        Turn::Busy { op } => {
            let rise = Rise::Root;
            return (Stage::Post { separator, rise }, Turn::Busy { op });
        }
        Turn::Refused(fault) => {
            let rise = Rise::Root;
            return (Stage::Post { separator, rise }, Turn::Refused(fault));
        }
    }
}

/// Goes on from a page, to the right or down, up to the page that begins at the separator. The
/// node from which the way last went down is then on the level above. Where there is none, the
/// separator stays unposted.
pub(crate) fn find_above<N: Nodes>(
    walk: &Walk,
    nodes: &mut N,
    separator: Separator,
    page: u64,
    above: Option<u64>,
) -> (Stage, Turn<()>)
    requires shown { N.shows nodes.old page }
    ensures turned { Turns (N.sound nodes.old) (N.sound nodes.new) walk.now (Stage.Post separator (Rise.Down page above)) result.0 KeepsKeys (N.world nodes.old) (N.world nodes.new) }
    ensures rule { IsTurned result.1 walk.now (N.world nodes.old) (N.world nodes.new) (N.left nodes.old) (N.left nodes.new) (Stage.Post separator (Rise.Down page above)) result.0 }
    ensures going { is_done result.1 ≡ false }
    ensures putting { IsPutting result.0 }
    ensures goes { N.goes nodes.old no_mark nodes.new }
    ensures busy { OnBusy result.1 (IsInTheWay (N.flushes nodes.old) (N.world nodes.old) walk.now.op) }
    ensures cause { CausedTurn result.1 (N.faults nodes.old) (N.faults nodes.new) (N.halted nodes.old) (N.halted nodes.new) }
{
    let Separator { low, child, left } = separator;
    let node = nodes.node(page);
    let leaf = node.is_leaf();
    let (place, low) = place_of(node, low);
    let separator = Separator { low, child, left };
    if leads_to(place, page) {
        let fault = nodes.bad(page);
        let rise = Rise::Down { page, above };
        return (Stage::Post { separator, rise }, Turn::Refused(fault));
    }
    match place {
        Place::Right(right) => return (on_way(separator, right, above), Turn::More),
        Place::Down(below) => return (on_way(separator, below, Some(page)), Turn::More),
        Place::Here(_) => return (Stage::Start, Turn::More),
        Place::End => {
            if leaf {
                return (Stage::Start, Turn::More);
            }
            let fault = nodes.bad(page);
            let rise = Rise::Down { page, above };
            return (Stage::Post { separator, rise }, Turn::Refused(fault));
        }
    }
}

/// Where a walk to a pair goes on from a node; and the pair.
fn place_of(node: &Node, pair: Pair) -> (Place, Pair)
    ensures place { result.0 ≡ next_place node.now (At pair) }
    ensures pair { result.1 ≡ pair }
{
    let target = Target::At(pair);
    let place = node.next_place(&target);
    match target {
        Target::At(pair) => return (place, pair),
        Target::First => unreachable!(),
        Target::Last => unreachable!(),
        Target::Before(_pair) => unreachable!(),
    }
}

/// At a page on the way to the child, or at the child.
fn on_way(separator: Separator, page: u64, above: Option<u64>) -> Stage
    ensures stands { (walk : Walk) (w : World) → Stands walk (Stage.Post separator (Rise.Down page above)) w → Stands walk result w }
    ensures putting { IsPutting result }
    ensures goes { (result ≡ Stage.Start) ⊎ GoesToward separator page above result }
{
    if page != separator.child {
        return Stage::Post {
            separator,
            rise: Rise::Down { page, above },
        };
    }
    match above {
        Some(above) => return Stage::Post {
            separator,
            rise: Rise::Above { page: above },
        },
        None => return Stage::Start,
    }
}

/// Makes the node above the operation's own.
pub(crate) fn own_above<N: Nodes>(
    walk: &Walk,
    nodes: &mut N,
    separator: Separator,
    page: u64,
) -> (Stage, Turn<()>)
    ensures turned { Turns (N.sound nodes.old) (N.sound nodes.new) walk.now (Stage.Post separator (Rise.Above page)) result.0 KeepsKeys (N.world nodes.old) (N.world nodes.new) }
    ensures rule { IsTurned result.1 walk.now (N.world nodes.old) (N.world nodes.new) (N.left nodes.old) (N.left nodes.new) (Stage.Post separator (Rise.Above page)) result.0 }
    ensures going { is_done result.1 ≡ false }
    ensures putting { IsPutting result.0 }
    ensures goes { N.goes nodes.old no_mark nodes.new }
    ensures busy { OnBusy result.1 (IsInTheWay (N.flushes nodes.old) (N.world nodes.old) walk.now.op) }
    ensures cause { CausedTurn result.1 (N.faults nodes.old) (N.faults nodes.new) (N.halted nodes.old) (N.halted nodes.new) }
{
    let owned = nodes.own(walk.op, page);
    if !is_done(&owned) {
        let rise = Rise::Above { page };
        return (Stage::Post { separator, rise }, owned);
    }
    let rise = Rise::Held { page, next: None };
    (Stage::Post { separator, rise }, Turn::More)
}

/// Whether a node is an inner one that begins at its low bound, with keys as long as a pair's.
fn is_above_for(node: &Node, pair: &Pair) -> bool
    ensures { result ≡ is_above_for node.now pair.now }
{
    !node.is_leaf() && node.key_len() == pair.key.as_slice().len() && node.begins_at_low()
}

/// Looks at the node again, now that it is the operation's own: goes on to the right, or posts the
/// separator.
pub(crate) fn post_held<N: Nodes>(
    walk: &Walk,
    nodes: &mut N,
    separator: Separator,
    page: u64,
    next: Option<Separator>,
    node: &mut Node,
) -> (Stage, Turn<()>)
    requires shown { N.shows nodes.old page }
    ensures turned { Turns (N.sound nodes.old) (N.sound nodes.new) walk.now (Stage.Post separator (Rise.Held page next)) result.0 KeepsKeys (N.world nodes.old) (N.world nodes.new) }
    ensures rule { IsTurned result.1 walk.now (N.world nodes.old) (N.world nodes.new) (N.left nodes.old) (N.left nodes.new) (Stage.Post separator (Rise.Held page next)) result.0 }
    ensures going { is_done result.1 ≡ false }
    ensures putting { IsPutting result.0 }
    ensures goes { N.goes nodes.old no_mark nodes.new }
    ensures busy { OnBusy result.1 (IsInTheWay (N.flushes nodes.old) (N.world nodes.old) walk.now.op) }
    ensures cause { CausedTurn result.1 (N.faults nodes.old) (N.faults nodes.new) (N.halted nodes.old) (N.halted nodes.new) }
{
    nodes.node(page).copy_into(node);
    if node.covers(&separator.low) {
        return post_within(walk, nodes, separator, page, next, node);
    }
    if next.is_some() {
        let fault = nodes.bad(page);
        let rise = Rise::Held { page, next };
        return (Stage::Post { separator, rise }, Turn::Refused(fault));
    }
    nodes.free(walk.op, page);
    let rise = Rise::Above { page: node.right() };
    (Stage::Post { separator, rise }, Turn::More)
}

/// Posts the separator to the node, unless it is there. A full node is to be split first.
fn post_within<N: Nodes>(
    walk: &Walk,
    nodes: &mut N,
    separator: Separator,
    page: u64,
    next: Option<Separator>,
    node: &mut Node,
) -> (Stage, Turn<()>)
    requires seen { page_at (N.world nodes.old) page ≡ Holds node.old }
    requires within { is_within node.old.low node.old.high separator.low ≡ true }
    ensures turned { Turns (N.sound nodes.old) (N.sound nodes.new) walk.now (Stage.Post separator (Rise.Held page next)) result.0 KeepsKeys (N.world nodes.old) (N.world nodes.new) }
    ensures rule { IsTurned result.1 walk.now (N.world nodes.old) (N.world nodes.new) (N.left nodes.old) (N.left nodes.new) (Stage.Post separator (Rise.Held page next)) result.0 }
    ensures going { is_done result.1 ≡ false }
    ensures putting { IsPutting result.0 }
    ensures goes { N.goes nodes.old no_mark nodes.new }
    ensures busy { OnBusy result.1 (IsInTheWay (N.flushes nodes.old) (N.world nodes.old) walk.now.op) }
    ensures cause { CausedTurn result.1 (N.faults nodes.old) (N.faults nodes.new) (N.halted nodes.old) (N.halted nodes.new) }
{
    if !is_above_for(node, &separator.low) {
        let fault = nodes.bad(page);
        let rise = Rise::Held { page, next };
        return (Stage::Post { separator, rise }, Turn::Refused(fault));
    }
    if node.has(&separator.low) {
        nodes.free(walk.op, page);
        return (after_post(next), Turn::More);
    }
    if !node.fits() {
        if next.is_some() {
            let fault = nodes.bad(page);
            let rise = Rise::Held { page, next };
            return (Stage::Post { separator, rise }, Turn::Refused(fault));
        }
        let rise = Rise::Full { page };
        return (Stage::Post { separator, rise }, Turn::More);
    }
    node.post(&separator.low, separator.child);
    if !leaves_room(&next, node) {
        let fault = nodes.bad(page);
        let rise = Rise::Held { page, next };
        return (Stage::Post { separator, rise }, Turn::Refused(fault));
    }
    let _count = node.count();
    let edited = nodes.edit(walk.op, page, node, Mark::NONE);
    if !is_done(&edited) {
        let rise = Rise::Held { page, next };
        return (Stage::Post { separator, rise }, edited);
    }
    nodes.free(walk.op, page);
    (after_post(next), Turn::More)
}

/// Whether a node has room for one more entry, where another separator is to be posted next: it is
/// then a half of a split.
fn leaves_room(next: &Option<Separator>, node: &Node) -> bool
    ensures { result ≡ leaves_room next.now node.now }
{
    match next {
        None => return true,
        Some(_) => return node.fits(),
    }
}

/// Where a put goes on once a separator is posted: with the next one, or anew with its pair.
fn after_post(next: Option<Separator>) -> Stage
    ensures { result ≡ after_post next }
{
    match next {
        Some(next) => return Stage::Post {
            separator: next,
            rise: Rise::Root,
        },
        None => return Stage::Start,
    }
}
