//! Searching an index: shared latches from the leaf of the target to the leaf of the answer, here to
//! the right.

ghost use Rattle.std.specs.Prelude.{◌≡◌, ◌≤◌, ◌<◌, IfSome, None, false, true, length};
ghost use Rattle.ct_node.specs.Turns.{OnBusy, CausedTurn, OnMore};
ghost use Rattle.ct_node.specs.Worlds.{no_mark, with_lost};
ghost use Rattle.ct_tree_laws.specs.Stands.{Stands, KeepsKeys, HasNone, InSound, Turned, Turns};
ghost use Rattle.ct_tree.specs.Answers.{is_done, TellsFound, IsFound, IsInTheWay, IsSearching, IsSeeking, IsSearchingBy, found_right, found_by};
ghost use Rattle.ct_tree.specs.Rules.{IsTurned, GivesWay, Visits};
ghost use Rattle.ct_tree.specs.Moves.{looked_at, spot_of, moves_after};
ghost use Rattle.ct_tree.specs.Counted.{IsCounted};
ghost use Rattle.ct_tree.specs.Remembered.{Remembers, IsComing};
ghost use Rattle.ct_tree.specs.Roles.{HasRole, HasCome, Comes, StaysOutside, Follows, Arrives};
ghost use Rattle.ct_tree.specs.Ends.{left_of, IsLess};

use crate::descent::{answer_with, descend, is_done, start, visit};
use crate::left::left_step;
use crate::moves::{circle_at, looked_at, moves_after, spot_of};
use crate::roles::Ways;
use crate::seek::Seek;
use ct_disk::Turn;
use ct_node::{Nodes, Pair, Reach, Root, Target};
use ct_tree_laws::{Stage, Walk};
use std::alloc::Global;

/// Searches an index in turns. It keeps its latches until `end`.
#[derive(Drop)]
pub struct Search {
    alloc: Global,
    pub walk: Walk,
    pub seek: Seek,
    pub stage: Stage,
    /// How many moves to another page the walk that is under way has made.
    pub moves: u64,
    pub ways: Ways,
}

impl Search {
    /// A search for one pair, by its place beside the target: `First` is below every pair, `Last`
    /// above every pair, and `Before` is not given. It takes no memory.
    pub fn new(alloc: Global, op: u64, at: Root, target: Target, seek: Seek) -> Search
        ensures walk { result.walk ≡ record { op = op; at = at; target = target } }
        ensures seek { result.seek ≡ seek }
        ensures stage { result.stage ≡ Stage.Start }
        ensures moves { result.moves ≡ 0 }
    {
        let walk = Walk { op, at, target };
        Search {
            alloc,
            ways: Ways::new(&walk),
            walk,
            seek,
            stage: Stage::Start,
            moves: 0,
        }
    }

    /// One turn. The turn that answers `Done` gives the pair found among those that stand at it, and
    /// keeps the latches under which it was found. A search that is `Busy` has given all its latches
    /// back, and begins again.
    pub fn turn<N: Nodes>(&mut self, nodes: &mut N) -> Turn<Option<Pair>>
        requires open { IsSearchingBy self.old.seek self.old.stage }
        ensures walk { self.new.walk ≡ self.old.walk }
        ensures seek { self.new.seek ≡ self.old.seek }
        ensures turned { InSound (N.sound nodes.old) (Remembers self.old.walk self.old.stage self.old.moves self.old.ways) (N.world nodes.old) (Turned (N.sound nodes.new) self.old.walk self.new.stage KeepsKeys (N.world nodes.old) (N.world nodes.new)) }
        ensures rule { IsTurned result self.old.walk (N.world nodes.old) (N.world nodes.new) (N.left nodes.old) (N.left nodes.new) self.old.stage self.new.stage }
        ensures counted { InSound (N.sound nodes.old) (Remembers self.old.walk self.old.stage self.old.moves self.old.ways) (N.world nodes.old) (λ lost. IsCounted self.new.stage self.new.moves (with_lost lost (N.world nodes.new))) }
        ensures moves { self.new.moves ≡ moves_after (spot_of self.old.stage) (spot_of self.new.stage) self.old.moves }
        ensures role { StaysOutside result self.old.stage self.new.stage self.old.ways.at (N.world nodes.old) }
        ensures come { InSound (N.sound nodes.old) (Remembers self.old.walk self.old.stage self.old.moves self.old.ways) (N.world nodes.old) (λ lost. HasCome self.new.stage self.new.ways (with_lost lost (N.world nodes.new))) }
        ensures comes { OnMore result (Comes self.old.walk (N.world nodes.old) self.old.stage self.new.stage self.old.ways self.new.ways) }
        ensures left { OnMore result (IsLess (left_of self.new.stage self.new.moves (N.world nodes.new) (N.left nodes.new)) (left_of self.old.stage self.old.moves (N.world nodes.old) (N.left nodes.old))) }
        ensures found { InSound (N.sound nodes.old) (Remembers self.old.walk self.old.stage self.old.moves self.old.ways) (N.world nodes.old) (λ lost. IsFound self.old.walk (found_by self.old.seek) result (with_lost lost (N.world nodes.old))) }
        ensures open { IsSearchingBy self.new.seek self.new.stage }
        ensures goes { N.goes nodes.old no_mark nodes.new }
        ensures busy { OnBusy result (IsInTheWay (N.flushes nodes.old) (N.world nodes.old) self.old.walk.op) }
        ensures given_back { OnBusy result (λ _. HasNone self.old.walk.op (N.world nodes.new)) }
        ensures cause { CausedTurn result (N.faults nodes.old) (N.faults nodes.new) (N.halted nodes.old) (N.halted nodes.new) }
    {
        let from = spot_of(&self.stage);
        let pages = nodes.pages();
        if let Some(page) = circle_at(from, self.moves, pages) {
            return Turn::Refused(nodes.bad(page));
        }
        let mut found = None;
        let turn = seek_step(
            self.alloc,
            &self.walk,
            self.seek,
            &mut self.stage,
            &mut self.ways,
            nodes,
            &mut found,
        );
        give_way(&self.walk, self.seek, &mut self.stage, &turn, nodes);
        self.moves = moves_after(from, spot_of(&self.stage), self.moves, pages);
        answer_with(turn, found)
    }

    /// Ends the search: none of its latches stands afterwards.
    pub fn end<N: Nodes>(&mut self, nodes: &mut N)
        requires open { IsSearchingBy self.old.seek self.old.stage }
        ensures walk { self.new.walk ≡ self.old.walk }
        ensures seek { self.new.seek ≡ self.old.seek }
        ensures ended { self.new.stage ≡ Stage.Ended }
        ensures moves { self.new.moves ≡ 0 }
        ensures come { InSound (N.sound nodes.old) (Remembers self.old.walk self.old.stage self.old.moves self.old.ways) (N.world nodes.old) (λ lost. HasCome self.new.stage self.new.ways (with_lost lost (N.world nodes.new))) }
        ensures turned { InSound (N.sound nodes.old) (Remembers self.old.walk self.old.stage self.old.moves self.old.ways) (N.world nodes.old) (Turned (N.sound nodes.new) self.old.walk self.new.stage KeepsKeys (N.world nodes.old) (N.world nodes.new)) }
        ensures given_back { HasNone self.old.walk.op (N.world nodes.new) }
        ensures goes { N.goes nodes.old no_mark nodes.new }
        ensures pages { Visits (N.world nodes.old) (N.world nodes.new) }
        ensures faults { N.faults nodes.new ≡ N.faults nodes.old }
        ensures halted { N.halted nodes.new ≡ N.halted nodes.old }
    {
        nodes.free_all(self.walk.op);
        self.stage = Stage::Ended;
        self.moves = 0;
    }
}

/// The turn of a search at a stage.
fn seek_step<N: Nodes>(
    alloc: Global,
    walk: &Walk,
    seek: Seek,
    stage: &mut Stage,
    ways: &mut Ways,
    nodes: &mut N,
    found: &mut Option<Pair>,
) -> Turn<()>
    requires unfound { found.old ≡ None }
    requires open { IsSearchingBy seek stage.old }
    ensures turned { InSound (N.sound nodes.old) (IsComing walk.now stage.old ways.old.at) (N.world nodes.old) (Turned (N.sound nodes.new) walk.now stage.new KeepsKeys (N.world nodes.old) (N.world nodes.new)) }
    ensures rule { IsTurned result walk.now (N.world nodes.old) (N.world nodes.new) (N.left nodes.old) (N.left nodes.new) stage.old stage.new }
    ensures role { StaysOutside result stage.old stage.new ways.old.at (N.world nodes.old) }
    ensures found { InSound (N.sound nodes.old) (IsComing walk.now stage.old ways.old.at) (N.world nodes.old) (λ lost. TellsFound walk.now (found_by seek) result found.new (with_lost lost (N.world nodes.old))) }
    ensures searching { IsSearchingBy seek stage.new }
    ensures goes { N.goes nodes.old no_mark nodes.new }
    ensures busy { OnBusy result (IsInTheWay (N.flushes nodes.old) (N.world nodes.old) walk.now.op) }
    ensures cause { CausedTurn result (N.faults nodes.old) (N.faults nodes.new) (N.halted nodes.old) (N.halted nodes.new) }
    ensures follows { Follows result walk.now (N.world nodes.old) stage.old stage.new ways.old ways.new }
{
    let seen = visit(walk.op, looked_at(stage), &ways.at, nodes);
    if !is_done(&seen) {
        return seen;
    }
    seek_seen(alloc, walk, seek, stage, ways, nodes, found)
}

/// The turn of a search at a stage, once the page that it looks at is at hand.
fn seek_seen<N: Nodes>(
    alloc: Global,
    walk: &Walk,
    seek: Seek,
    stage: &mut Stage,
    ways: &mut Ways,
    nodes: &mut N,
    found: &mut Option<Pair>,
) -> Turn<()>
    requires unfound { found.old ≡ None }
    requires open { IsSearchingBy seek stage.old }
    requires shown { IfSome (looked_at stage.old) (N.shows nodes.old) }
    ensures turned { Turns (N.sound nodes.old) (N.sound nodes.new) walk.now stage.old stage.new KeepsKeys (N.world nodes.old) (N.world nodes.new) }
    ensures rule { IsTurned result walk.now (N.world nodes.old) (N.world nodes.new) (N.left nodes.old) (N.left nodes.new) stage.old stage.new }
    ensures found { InSound (N.sound nodes.old) (Stands walk.now stage.old) (N.world nodes.old) (λ lost. TellsFound walk.now (found_by seek) result found.new (with_lost lost (N.world nodes.old))) }
    ensures searching { IsSearchingBy seek stage.new }
    ensures goes { N.goes nodes.old no_mark nodes.new }
    ensures busy { OnBusy result (IsInTheWay (N.flushes nodes.old) (N.world nodes.old) walk.now.op) }
    ensures cause { CausedTurn result (N.faults nodes.old) (N.faults nodes.new) (N.halted nodes.old) (N.halted nodes.new) }
    ensures follows { Follows result walk.now (N.world nodes.old) stage.old stage.new ways.old ways.new }
{
    match seek {
        Seek::AtOrAbove => search_step(alloc, walk, false, stage, ways, nodes, found),
        Seek::Above => search_step(alloc, walk, true, stage, ways, nodes, found),
        Seek::AtOrBelow => left_step(alloc, walk, true, stage, ways, nodes, found),
        Seek::Below => left_step(alloc, walk, false, stage, ways, nodes, found),
    }
}

/// Where another operation is in the way, gives all latches back, and the search begins again.
fn give_way<N: Nodes>(walk: &Walk, seek: Seek, stage: &mut Stage, turn: &Turn<()>, nodes: &mut N)
    requires open { IsSearchingBy seek stage.old }
    ensures turned { Turns (N.sound nodes.old) (N.sound nodes.new) walk.now stage.old stage.new KeepsKeys (N.world nodes.old) (N.world nodes.new) }
    ensures searching { IsSearchingBy seek stage.new }
    ensures given_back { OnBusy turn.now (λ _. HasNone walk.now.op (N.world nodes.new)) }
    ensures goes { N.goes nodes.old no_mark nodes.new }
    ensures gives_way { GivesWay turn.now (N.world nodes.old) (N.world nodes.new) (N.left nodes.old) (N.left nodes.new) stage.old stage.new }
    ensures faults { N.faults nodes.new ≡ N.faults nodes.old }
    ensures halted { N.halted nodes.new ≡ N.halted nodes.old }
{
    if let Turn::Busy { op: _ } = turn {
        nodes.free_all(walk.op);
        *stage = Stage::Start;
    }
}

/// The turn of a search to the right at a stage.
fn search_step<N: Nodes>(
    alloc: Global,
    walk: &Walk,
    above: bool,
    stage: &mut Stage,
    ways: &mut Ways,
    nodes: &mut N,
    found: &mut Option<Pair>,
) -> Turn<()>
    requires unfound { found.old ≡ None }
    requires open { IsSearching above stage.old }
    requires shown { IfSome (looked_at stage.old) (N.shows nodes.old) }
    ensures turned { Turns (N.sound nodes.old) (N.sound nodes.new) walk.now stage.old stage.new KeepsKeys (N.world nodes.old) (N.world nodes.new) }
    ensures rule { IsTurned result walk.now (N.world nodes.old) (N.world nodes.new) (N.left nodes.old) (N.left nodes.new) stage.old stage.new }
    ensures found { InSound (N.sound nodes.old) (Stands walk.now stage.old) (N.world nodes.old) (λ lost. TellsFound walk.now (found_right above) result found.new (with_lost lost (N.world nodes.old))) }
    ensures searching { IsSearching above stage.new }
    ensures goes { N.goes nodes.old no_mark nodes.new }
    ensures busy { OnBusy result (IsInTheWay (N.flushes nodes.old) (N.world nodes.old) walk.now.op) }
    ensures cause { CausedTurn result (N.faults nodes.old) (N.faults nodes.new) (N.halted nodes.old) (N.halted nodes.new) }
    ensures follows { Follows result walk.now (N.world nodes.old) stage.old stage.new ways.old ways.new }
{
    if let Stage::Shared { page, above: _ } = *stage {
        return look_shared(alloc, walk, above, page, stage, &mut ways.at, nodes, found);
    }
    find_shared(alloc, walk, above, stage, &mut ways.at, nodes)
}

/// One turn on the way to a leaf that is to be shared.
fn find_shared<N: Nodes>(
    alloc: Global,
    walk: &Walk,
    above: bool,
    stage: &mut Stage,
    reach: &mut Reach,
    nodes: &mut N,
) -> Turn<()>
    requires open { IsSeeking above stage.old }
    requires shown { IfSome (looked_at stage.old) (N.shows nodes.old) }
    ensures turned { Turns (N.sound nodes.old) (N.sound nodes.new) walk.now stage.old stage.new KeepsKeys (N.world nodes.old) (N.world nodes.new) }
    ensures rule { IsTurned result walk.now (N.world nodes.old) (N.world nodes.new) (N.left nodes.old) (N.left nodes.new) stage.old stage.new }
    ensures going { is_done result ≡ false }
    ensures searching { IsSearching above stage.new }
    ensures goes { N.goes nodes.old no_mark nodes.new }
    ensures busy { OnBusy result (IsInTheWay (N.flushes nodes.old) (N.world nodes.old) walk.now.op) }
    ensures cause { CausedTurn result (N.faults nodes.old) (N.faults nodes.new) (N.halted nodes.old) (N.halted nodes.new) }
    ensures arrives { Arrives result walk.now (N.world nodes.old) stage.old stage.new reach.old reach.new }
{
    match *stage {
        Stage::Start => start(walk, stage, reach, nodes),
        Stage::Down { page } => descend(alloc, walk, page, stage, reach, nodes),
        Stage::Leaf { page } => share_leaf(walk, above, page, stage, nodes),
        Stage::Share { page, above: _ } => share_next(walk, above, page, stage, nodes),
        Stage::Held { page: _ } => unreachable!(),
        Stage::Full { page: _ } => unreachable!(),
        Stage::Split { page: _, right: _ } => unreachable!(),
        Stage::Cut { page: _, right: _ } => unreachable!(),
        Stage::Shared { page: _, above: _ } => unreachable!(),
        Stage::SharedLeft { page: _ } => unreachable!(),
        Stage::Left {
            low: _,
            or_at: _,
            way: _,
        } => unreachable!(),
        Stage::Post {
            separator: _,
            rise: _,
        } => unreachable!(),
        Stage::Ended => unreachable!(),
    }
}

/// Shares the leaf that was found.
pub(crate) fn share_leaf<N: Nodes>(
    walk: &Walk,
    above: bool,
    page: u64,
    stage: &mut Stage,
    nodes: &mut N,
) -> Turn<()>
    requires at { stage.old ≡ Stage.Leaf page }
    ensures turned { Turns (N.sound nodes.old) (N.sound nodes.new) walk.now (Stage.Leaf page) stage.new KeepsKeys (N.world nodes.old) (N.world nodes.new) }
    ensures rule { IsTurned result walk.now (N.world nodes.old) (N.world nodes.new) (N.left nodes.old) (N.left nodes.new) (Stage.Leaf page) stage.new }
    ensures going { is_done result ≡ false }
    ensures searching { IsSearching above stage.new }
    ensures goes { N.goes nodes.old no_mark nodes.new }
    ensures busy { OnBusy result (IsInTheWay (N.flushes nodes.old) (N.world nodes.old) walk.now.op) }
    ensures cause { CausedTurn result (N.faults nodes.old) (N.faults nodes.new) (N.halted nodes.old) (N.halted nodes.new) }
{
    let shared = nodes.share(walk.op, page);
    if !is_done(&shared) {
        return shared;
    }
    *stage = Stage::Shared { page, above };
    Turn::More
}

/// Shares the next leaf too.
pub(crate) fn share_next<N: Nodes>(
    walk: &Walk,
    above: bool,
    page: u64,
    stage: &mut Stage,
    nodes: &mut N,
) -> Turn<()>
    requires at { stage.old ≡ Stage.Share page above }
    ensures turned { Turns (N.sound nodes.old) (N.sound nodes.new) walk.now (Stage.Share page above) stage.new KeepsKeys (N.world nodes.old) (N.world nodes.new) }
    ensures rule { IsTurned result walk.now (N.world nodes.old) (N.world nodes.new) (N.left nodes.old) (N.left nodes.new) (Stage.Share page above) stage.new }
    ensures going { is_done result ≡ false }
    ensures searching { IsSearching above stage.new }
    ensures goes { N.goes nodes.old no_mark nodes.new }
    ensures busy { OnBusy result (IsInTheWay (N.flushes nodes.old) (N.world nodes.old) walk.now.op) }
    ensures cause { CausedTurn result (N.faults nodes.old) (N.faults nodes.new) (N.halted nodes.old) (N.halted nodes.new) }
{
    let shared = nodes.share(walk.op, page);
    if !is_done(&shared) {
        return shared;
    }
    *stage = Stage::Shared { page, above };
    Turn::More
}

/// Looks at the leaf that it has: answers a pair of it, or goes on to the next leaf and keeps this
/// one. A leaf that was cut before it was shared is given back.
pub(crate) fn look_shared<N: Nodes>(
    alloc: Global,
    walk: &Walk,
    above: bool,
    page: u64,
    stage: &mut Stage,
    reach: &mut Reach,
    nodes: &mut N,
    found: &mut Option<Pair>,
) -> Turn<()>
    requires at { stage.old ≡ Stage.Shared page above }
    requires unfound { found.old ≡ None }
    requires shown { N.shows nodes.old page }
    ensures turned { Turns (N.sound nodes.old) (N.sound nodes.new) walk.now (Stage.Shared page above) stage.new KeepsKeys (N.world nodes.old) (N.world nodes.new) }
    ensures rule { IsTurned result walk.now (N.world nodes.old) (N.world nodes.new) (N.left nodes.old) (N.left nodes.new) (Stage.Shared page above) stage.new }
    ensures found { InSound (N.sound nodes.old) (Stands walk.now (Stage.Shared page above)) (N.world nodes.old) (λ lost. TellsFound walk.now (found_right above) result found.new (with_lost lost (N.world nodes.old))) }
    ensures searching { IsSearching above stage.new }
    ensures goes { N.goes nodes.old no_mark nodes.new }
    ensures busy { OnBusy result (IsInTheWay (N.flushes nodes.old) (N.world nodes.old) walk.now.op) }
    ensures cause { CausedTurn result (N.faults nodes.old) (N.faults nodes.new) (N.halted nodes.old) (N.halted nodes.new) }
    ensures arrives { Arrives result walk.now (N.world nodes.old) (Stage.Shared page above) stage.new reach.old reach.new }
{
    let node = nodes.node(page);
    if node.is_past(&walk.target) {
        let right = node.right();
        if right == page {
            return Turn::Refused(nodes.bad(page));
        }
        node.come_right(alloc, reach);
        nodes.free_all(walk.op);
        *stage = Stage::Down { page: right };
        return Turn::More;
    }
    let place = node.count_ahead(&walk.target, above);
    if place < node.count() {
        *found = Some(node.pair(alloc, place));
        return Turn::Done(());
    }
    if !node.is_past(&Target::Last) {
        return Turn::Done(());
    }
    let right = node.right();
    if right == page {
        return Turn::Refused(nodes.bad(page));
    }
    node.come_right(alloc, reach);
    *stage = Stage::Share { page: right, above };
    Turn::More
}
