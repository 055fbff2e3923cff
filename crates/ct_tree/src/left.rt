//! Searching to the left: shared latches from the leaf of the target to the leaf of the answer, each
//! of which is found by a descent of its own to the leaf that ends where the one before begins.

ghost use Rattle.std.specs.Prelude.{◌≡◌, IfSome, None, false};
ghost use Rattle.ct_node.specs.declared.target.Target.TheVariants.{Before};
ghost use Rattle.ct_node.specs.Places.{next_place};
ghost use Rattle.ct_node.specs.Turns.{OnBusy, CausedTurn};
ghost use Rattle.ct_node.specs.Worlds.{no_mark, with_lost};
ghost use Rattle.ct_tree_laws.specs.Stands.{Stands, KeepsKeys, InSound, Turns};
ghost use Rattle.ct_tree.specs.Answers.{is_done, TellsFound, IsInTheWay, IsSearchingLeft, found_left, IsLeft};
ghost use Rattle.ct_tree.specs.Rules.{IsTurned};
ghost use Rattle.ct_tree.specs.Moves.{looked_at, looked_on};
ghost use Rattle.ct_tree.specs.Roles.{Follows, Arrives};

use crate::descent::{descend, is_done, leads_to, start};
use crate::roles::{Trail, Ways, way_of};
use ct_disk::Turn;
use ct_node::{Node, Nodes, Pair, Place, Reach, Target};
use ct_tree_laws::{Stage, Walk, Way};
use std::alloc::Global;
use std::mem::replace;

/// The turn of a search to the left at a stage.
pub(crate) fn left_step<N: Nodes>(
    alloc: Global,
    walk: &Walk,
    or_at: bool,
    stage: &mut Stage,
    ways: &mut Ways,
    nodes: &mut N,
    found: &mut Option<Pair>,
) -> Turn<()>
    requires unfound { found.old ≡ None }
    requires open { IsSearchingLeft or_at stage.old }
    requires shown { IfSome (looked_at stage.old) (N.shows nodes.old) }
    ensures turned { Turns (N.sound nodes.old) (N.sound nodes.new) walk.now stage.old stage.new KeepsKeys (N.world nodes.old) (N.world nodes.new) }
    ensures rule { IsTurned result walk.now (N.world nodes.old) (N.world nodes.new) (N.left nodes.old) (N.left nodes.new) stage.old stage.new }
    ensures found { InSound (N.sound nodes.old) (Stands walk.now stage.old) (N.world nodes.old) (λ lost. TellsFound walk.now (found_left or_at) result found.new (with_lost lost (N.world nodes.old))) }
    ensures searching { IsSearchingLeft or_at stage.new }
    ensures goes { N.goes nodes.old no_mark nodes.new }
    ensures busy { OnBusy result (IsInTheWay (N.flushes nodes.old) (N.world nodes.old) walk.now.op) }
    ensures cause { CausedTurn result (N.faults nodes.old) (N.faults nodes.new) (N.halted nodes.old) (N.halted nodes.new) }
    ensures follows { Follows result walk.now (N.world nodes.old) stage.old stage.new ways.old ways.new }
{
    match *stage {
        Stage::Start => start(walk, stage, &mut ways.at, nodes),
        Stage::Down { page } => descend(alloc, walk, page, stage, &mut ways.at, nodes),
        Stage::Leaf { page } => share_first(walk, page, stage, nodes),
        Stage::SharedLeft { page } => look_first(
            alloc,
            walk,
            or_at,
            page,
            stage,
            &mut ways.at,
            nodes,
            found,
        ),
        Stage::Left {
            low: _,
            or_at: _,
            way: _,
        } => step_left(alloc, walk, or_at, stage, ways, nodes, found),
        Stage::Held { page: _ } => unreachable!(),
        Stage::Full { page: _ } => unreachable!(),
        Stage::Split { page: _, right: _ } => unreachable!(),
        Stage::Cut { page: _, right: _ } => unreachable!(),
        Stage::Share { page: _, above: _ } => unreachable!(),
        Stage::Shared { page: _, above: _ } => unreachable!(),
        Stage::Post {
            separator: _,
            rise: _,
        } => unreachable!(),
        Stage::Ended => unreachable!(),
    }
}

/// A turn that goes on finds nothing yet.
fn going(step: (Stage, Turn<()>)) -> (Stage, Turn<()>, Option<Pair>)
    ensures stage { result.0 ≡ step.0 }
    ensures turn { result.1 ≡ step.1 }
{
    (step.0, step.1, None)
}

/// Shares the leaf of the target.
fn share_first<N: Nodes>(walk: &Walk, page: u64, stage: &mut Stage, nodes: &mut N) -> Turn<()>
    requires at { stage.old ≡ Stage.Leaf page }
    ensures turned { Turns (N.sound nodes.old) (N.sound nodes.new) walk.now (Stage.Leaf page) stage.new KeepsKeys (N.world nodes.old) (N.world nodes.new) }
    ensures rule { IsTurned result walk.now (N.world nodes.old) (N.world nodes.new) (N.left nodes.old) (N.left nodes.new) (Stage.Leaf page) stage.new }
    ensures going { is_done result ≡ false }
    ensures searching { (or_at : _) → IsSearchingLeft or_at stage.new }
    ensures goes { N.goes nodes.old no_mark nodes.new }
    ensures busy { OnBusy result (IsInTheWay (N.flushes nodes.old) (N.world nodes.old) walk.now.op) }
    ensures cause { CausedTurn result (N.faults nodes.old) (N.faults nodes.new) (N.halted nodes.old) (N.halted nodes.new) }
{
    let shared = nodes.share(walk.op, page);
    if !is_done(&shared) {
        return shared;
    }
    *stage = Stage::SharedLeft { page };
    Turn::More
}

/// Looks at the leaf of the target: answers a pair of it, or goes on to the left and keeps it. A
/// leaf that was cut before it was shared is given back.
fn look_first<N: Nodes>(
    alloc: Global,
    walk: &Walk,
    or_at: bool,
    page: u64,
    stage: &mut Stage,
    reach: &mut Reach,
    nodes: &mut N,
    found: &mut Option<Pair>,
) -> Turn<()>
    requires at { stage.old ≡ Stage.SharedLeft page }
    requires unfound { found.old ≡ None }
    requires shown { N.shows nodes.old page }
    ensures turned { Turns (N.sound nodes.old) (N.sound nodes.new) walk.now (Stage.SharedLeft page) stage.new KeepsKeys (N.world nodes.old) (N.world nodes.new) }
    ensures rule { IsTurned result walk.now (N.world nodes.old) (N.world nodes.new) (N.left nodes.old) (N.left nodes.new) (Stage.SharedLeft page) stage.new }
    ensures found { InSound (N.sound nodes.old) (Stands walk.now (Stage.SharedLeft page)) (N.world nodes.old) (λ lost. TellsFound walk.now (found_left or_at) result found.new (with_lost lost (N.world nodes.old))) }
    ensures searching { IsSearchingLeft or_at stage.new }
    ensures goes { N.goes nodes.old no_mark nodes.new }
    ensures busy { OnBusy result (IsInTheWay (N.flushes nodes.old) (N.world nodes.old) walk.now.op) }
    ensures cause { CausedTurn result (N.faults nodes.old) (N.faults nodes.new) (N.halted nodes.old) (N.halted nodes.new) }
    ensures arrives { Arrives result walk.now (N.world nodes.old) (Stage.SharedLeft page) stage.new reach.old reach.new }
{
    let node = nodes.node(page);
    if node.is_past(&walk.target) {
        let right = node.right();
        if right == page {
            return Turn::Refused(nodes.bad(page));
        }
        node.come_right(alloc, reach);
        nodes.free_all(walk.op);
        *stage = Stage::Down { page: right };
        return Turn::More;
    }
    let ahead = node.count_ahead(&walk.target, or_at);
    if ahead > 0 {
        *found = Some(node.pair(alloc, ahead - 1));
        return Turn::Done(());
    }
    let Some(low) = node.low(alloc) else {
        return Turn::Done(());
    };
    *stage = Stage::Left {
        low,
        or_at,
        way: Way::Start,
    };
    Turn::More
}

/// One turn of a search that goes on to the left, and the way to its page.
fn step_left<N: Nodes>(
    alloc: Global,
    walk: &Walk,
    or_at: bool,
    stage: &mut Stage,
    ways: &mut Ways,
    nodes: &mut N,
    found: &mut Option<Pair>,
) -> Turn<()>
    requires at { IsLeft or_at stage.old }
    requires shown { IfSome (looked_at stage.old) (N.shows nodes.old) }
    ensures turned { Turns (N.sound nodes.old) (N.sound nodes.new) walk.now stage.old stage.new KeepsKeys (N.world nodes.old) (N.world nodes.new) }
    ensures rule { IsTurned result walk.now (N.world nodes.old) (N.world nodes.new) (N.left nodes.old) (N.left nodes.new) stage.old stage.new }
    ensures found { InSound (N.sound nodes.old) (Stands walk.now stage.old) (N.world nodes.old) (λ lost. TellsFound walk.now (found_left or_at) result found.new (with_lost lost (N.world nodes.old))) }
    ensures searching { IsSearchingLeft or_at stage.new }
    ensures goes { N.goes nodes.old no_mark nodes.new }
    ensures busy { OnBusy result (IsInTheWay (N.flushes nodes.old) (N.world nodes.old) walk.now.op) }
    ensures cause { CausedTurn result (N.faults nodes.old) (N.faults nodes.new) (N.halted nodes.old) (N.halted nodes.new) }
    ensures follows { Follows result walk.now (N.world nodes.old) stage.old stage.new ways.old ways.new }
{
    let trail = Trail::of(stage);
    let on = way_of(alloc, walk, stage, nodes);
    let Stage::Left { low, or_at, way } = replace(stage, Stage::Ended) else {
        unreachable!();
    };
    let (to, turn, pair) = go_left(alloc, walk, or_at, nodes, low, way);
    *stage = to;
    *found = pair;
    ways.follow(walk, trail, &turn, stage, on);
    turn
}

/// One turn of a search that goes on to the left from a low bound.
fn go_left<N: Nodes>(
    alloc: Global,
    walk: &Walk,
    or_at: bool,
    nodes: &mut N,
    low: Pair,
    way: Way,
) -> (Stage, Turn<()>, Option<Pair>)
    requires shown { IfSome (looked_on way) (N.shows nodes.old) }
    ensures turned { Turns (N.sound nodes.old) (N.sound nodes.new) walk.now (Stage.Left low or_at way) result.0 KeepsKeys (N.world nodes.old) (N.world nodes.new) }
    ensures rule { IsTurned result.1 walk.now (N.world nodes.old) (N.world nodes.new) (N.left nodes.old) (N.left nodes.new) (Stage.Left low or_at way) result.0 }
    ensures found { InSound (N.sound nodes.old) (Stands walk.now (Stage.Left low or_at way)) (N.world nodes.old) (λ lost. TellsFound walk.now (found_left or_at) result.1 result.2 (with_lost lost (N.world nodes.old))) }
    ensures searching { IsSearchingLeft or_at result.0 }
    ensures goes { N.goes nodes.old no_mark nodes.new }
    ensures busy { OnBusy result.1 (IsInTheWay (N.flushes nodes.old) (N.world nodes.old) walk.now.op) }
    ensures cause { CausedTurn result.1 (N.faults nodes.old) (N.faults nodes.new) (N.halted nodes.old) (N.halted nodes.new) }
{
    match way {
        Way::Start => return going(start_left(walk, or_at, nodes, low)),
        Way::Down { page } => return going(descend_left(walk, or_at, nodes, low, page)),
        Way::Leaf { page } => return going(share_left(walk, or_at, nodes, low, page)),
        Way::Shared { page } => return look_left(alloc, walk, or_at, nodes, low, page),
    }
}

/// Reads the root.
fn start_left<N: Nodes>(walk: &Walk, or_at: bool, nodes: &mut N, low: Pair) -> (Stage, Turn<()>)
    ensures turned { Turns (N.sound nodes.old) (N.sound nodes.new) walk.now (Stage.Left low or_at Way.Start) result.0 KeepsKeys (N.world nodes.old) (N.world nodes.new) }
    ensures rule { IsTurned result.1 walk.now (N.world nodes.old) (N.world nodes.new) (N.left nodes.old) (N.left nodes.new) (Stage.Left low or_at Way.Start) result.0 }
    ensures going { is_done result.1 ≡ false }
    ensures searching { IsSearchingLeft or_at result.0 }
    ensures goes { N.goes nodes.old no_mark nodes.new }
    ensures busy { OnBusy result.1 (IsInTheWay (N.flushes nodes.old) (N.world nodes.old) walk.now.op) }
    ensures cause { CausedTurn result.1 (N.faults nodes.old) (N.faults nodes.new) (N.halted nodes.old) (N.halted nodes.new) }
{
    let way = Way::Start;
    match nodes.root(walk.op, walk.at) {
        Turn::Done(page) => {
            let way = Way::Down { page };
            return (Stage::Left { low, or_at, way }, Turn::More);
        }
        Turn::More => return (Stage::Left { low, or_at, way }, Turn::More),
        Turn::Busy { op } => return (Stage::Left { low, or_at, way }, Turn::Busy { op }),
        Turn::Refused(fault) => return (Stage::Left { low, or_at, way }, Turn::Refused(fault)),
    }
}

/// Where the walk to the leaf that ends at a pair goes on from a node. Gives the pair back.
fn next_before(node: &Node, low: Pair) -> (Place, Pair)
    ensures place { result.0 ≡ next_place node.now (Before low) }
    ensures low { result.1 ≡ low }
{
    let target = Target::Before(low);
    let place = node.next_place(&target);
    match target {
        Target::Before(low) => return (place, low),
        Target::First => unreachable!(),
        Target::Last => unreachable!(),
        Target::At(_pair) => unreachable!(),
    }
}

/// Goes on from a page: right, down, or to the leaf that it is.
fn descend_left<N: Nodes>(
    walk: &Walk,
    or_at: bool,
    nodes: &mut N,
    low: Pair,
    page: u64,
) -> (Stage, Turn<()>)
    requires shown { N.shows nodes.old page }
    ensures turned { Turns (N.sound nodes.old) (N.sound nodes.new) walk.now (Stage.Left low or_at (Way.Down page)) result.0 KeepsKeys (N.world nodes.old) (N.world nodes.new) }
    ensures rule { IsTurned result.1 walk.now (N.world nodes.old) (N.world nodes.new) (N.left nodes.old) (N.left nodes.new) (Stage.Left low or_at (Way.Down page)) result.0 }
    ensures going { is_done result.1 ≡ false }
    ensures searching { IsSearchingLeft or_at result.0 }
    ensures goes { N.goes nodes.old no_mark nodes.new }
    ensures busy { OnBusy result.1 (IsInTheWay (N.flushes nodes.old) (N.world nodes.old) walk.now.op) }
    ensures cause { CausedTurn result.1 (N.faults nodes.old) (N.faults nodes.new) (N.halted nodes.old) (N.halted nodes.new) }
{
    let node = nodes.node(page);
    let leaf = node.is_leaf();
    let (place, low) = next_before(node, low);
    if leads_to(place, page) {
        let way = Way::Down { page };
        return (
            Stage::Left { low, or_at, way },
            Turn::Refused(nodes.bad(page)),
        );
    }
    match place {
        Place::Right(right) => {
            let way = Way::Down { page: right };
            return (Stage::Left { low, or_at, way }, Turn::More);
        }
        Place::Down(below) => {
            let way = Way::Down { page: below };
            return (Stage::Left { low, or_at, way }, Turn::More);
        }
        Place::Here(_) => {
            let way = Way::Leaf { page };
            return (Stage::Left { low, or_at, way }, Turn::More);
        }
        Place::End => {
            if leaf {
                let way = Way::Leaf { page };
                return (Stage::Left { low, or_at, way }, Turn::More);
            }
            let way = Way::Down { page };
            return (
                Stage::Left { low, or_at, way },
                Turn::Refused(nodes.bad(page)),
            );
        }
    }
}

/// Shares the leaf that was found, too.
fn share_left<N: Nodes>(
    walk: &Walk,
    or_at: bool,
    nodes: &mut N,
    low: Pair,
    page: u64,
) -> (Stage, Turn<()>)
    ensures turned { Turns (N.sound nodes.old) (N.sound nodes.new) walk.now (Stage.Left low or_at (Way.Leaf page)) result.0 KeepsKeys (N.world nodes.old) (N.world nodes.new) }
    ensures rule { IsTurned result.1 walk.now (N.world nodes.old) (N.world nodes.new) (N.left nodes.old) (N.left nodes.new) (Stage.Left low or_at (Way.Leaf page)) result.0 }
    ensures going { is_done result.1 ≡ false }
    ensures searching { IsSearchingLeft or_at result.0 }
    ensures goes { N.goes nodes.old no_mark nodes.new }
    ensures busy { OnBusy result.1 (IsInTheWay (N.flushes nodes.old) (N.world nodes.old) walk.now.op) }
    ensures cause { CausedTurn result.1 (N.faults nodes.old) (N.faults nodes.new) (N.halted nodes.old) (N.halted nodes.new) }
{
    let shared = nodes.share(walk.op, page);
    if !is_done(&shared) {
        let way = Way::Leaf { page };
        return (Stage::Left { low, or_at, way }, shared);
    }
    let way = Way::Shared { page };
    (Stage::Left { low, or_at, way }, Turn::More)
}

/// Looks at the leaf that was found: answers a pair of it, or goes on to the left and keeps it too.
/// A leaf that was cut before it was shared is given back.
fn look_left<N: Nodes>(
    alloc: Global,
    walk: &Walk,
    or_at: bool,
    nodes: &mut N,
    low: Pair,
    page: u64,
) -> (Stage, Turn<()>, Option<Pair>)
    requires shown { N.shows nodes.old page }
    ensures turned { Turns (N.sound nodes.old) (N.sound nodes.new) walk.now (Stage.Left low or_at (Way.Shared page)) result.0 KeepsKeys (N.world nodes.old) (N.world nodes.new) }
    ensures rule { IsTurned result.1 walk.now (N.world nodes.old) (N.world nodes.new) (N.left nodes.old) (N.left nodes.new) (Stage.Left low or_at (Way.Shared page)) result.0 }
    ensures found { InSound (N.sound nodes.old) (Stands walk.now (Stage.Left low or_at (Way.Shared page))) (N.world nodes.old) (λ lost. TellsFound walk.now (found_left or_at) result.1 result.2 (with_lost lost (N.world nodes.old))) }
    ensures searching { IsSearchingLeft or_at result.0 }
    ensures goes { N.goes nodes.old no_mark nodes.new }
    ensures busy { OnBusy result.1 (IsInTheWay (N.flushes nodes.old) (N.world nodes.old) walk.now.op) }
    ensures cause { CausedTurn result.1 (N.faults nodes.old) (N.faults nodes.new) (N.halted nodes.old) (N.halted nodes.new) }
{
    let node = nodes.node(page);
    let way = Way::Shared { page };
    let (place, low) = next_before(node, low);
    if let Place::Right(right) = place {
        nodes.free(walk.op, page);
        let way = Way::Down { page: right };
        return (Stage::Left { low, or_at, way }, Turn::More, None);
    }
    let before = node.count_ahead(&walk.target, or_at);
    if before > 0 {
        let pair = node.pair(alloc, before - 1);
        return (Stage::Left { low, or_at, way }, Turn::Done(()), Some(pair));
    }
    match node.low(alloc) {
        Some(next) => {
            if !node.begins_below(&low) {
                let fault = nodes.bad(page);
                return (Stage::Left { low, or_at, way }, Turn::Refused(fault), None);
            }
            let on = Stage::Left {
                low: next,
                or_at,
                way: Way::Start,
            };
            return (on, Turn::More, None);
        }
        None => return (Stage::Left { low, or_at, way }, Turn::Done(()), None),
    }
}
