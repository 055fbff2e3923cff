//! Putting a pair: the leaf found, made the operation's own, split where it is full, and written.

ghost use Rattle.std.specs.Prelude.{◌≡◌, ◌≤◌, ◌==◌, ◌&&◌, IfSome, false, true, length};
ghost use Rattle.ct_node.specs.Places.{is_past};
ghost use Rattle.ct_node.specs.Worlds.{Holds, page_at, with_lost, Adds};
ghost use Rattle.ct_node.specs.Turns.{OnDone, OnBusy, CausedTurn, OnMore};
ghost use Rattle.ct_tree_laws.specs.Stands.{Stands, HasNone, InSound, Turned, Turns};
ghost use Rattle.ct_tree.specs.Answers.{IsPair, PutsKeys, IsInTheWay, IsPutting, GoesOn, BearsPut, GoesBy, MayBear};
ghost use Rattle.ct_tree.specs.Rules.{IsTurned};
ghost use Rattle.ct_tree.specs.Moves.{looked_at, spot_of, moves_after};
ghost use Rattle.ct_tree.specs.Counted.{IsCounted};
ghost use Rattle.ct_tree.specs.Remembered.{Remembers, IsComing};
ghost use Rattle.ct_tree.specs.Roles.{HasRole, HasCome, Comes, StaysOutside, Follows, Arrives};
ghost use Rattle.ct_tree.specs.Ends.{left_of, IsLess};

use crate::descent::{descend, is_done, is_for, own_leaf, start, visit};
use crate::moves::{circle_at, looked_at, moves_after, spot_of};
use crate::post::step_up;
use crate::roles::Ways;
use crate::split::{allocate, cut_left, write_right};
use ct_disk::Turn;
use ct_node::{Mark, Node, Nodes, Reach, Root, Target};
use ct_tree_laws::{Stage, Walk};
use std::alloc::Global;

/// Puts one pair into an index, in turns. A pair that is there already is left as it is.
#[derive(Drop)]
pub struct Put {
    alloc: Global,
    pub walk: Walk,
    pub mark: Mark,
    pub stage: Stage,
    /// How many moves to another page the walk that is under way has made.
    pub moves: u64,
    pub ways: Ways,
    node: Node,
}

impl Put {
    /// A put of the pair that the target is. The edit that puts it bears the mark, and no other does.
    /// It takes no memory.
    pub fn new(alloc: Global, op: u64, at: Root, target: Target, mark: Mark) -> Put
        requires { IsPair target }
        ensures walk { result.walk ≡ record { op = op; at = at; target = target } }
        ensures mark { result.mark ≡ mark }
        ensures stage { result.stage ≡ Stage.Start }
        ensures moves { result.moves ≡ 0 }
    {
        let walk = Walk { op, at, target };
        Put {
            alloc,
            ways: Ways::new(&walk),
            walk,
            mark,
            stage: Stage::Start,
            moves: 0,
            node: Node::new(0, 0, true, 1),
        }
    }

    /// One turn. The turn that answers `Done` has put the pair and given back what the put took; no
    /// other turn changes the pairs of any index.
    pub fn turn<N: Nodes>(&mut self, nodes: &mut N) -> Turn<()>
        requires pair { IsPair self.old.walk.target }
        requires open { IsPutting self.old.stage }
        requires mark { MayBear (N.allows nodes.old self.old.walk.op) self.old.mark self.old.walk.target (Adds self.old.walk.at) }
        ensures walk { self.new.walk ≡ self.old.walk }
        ensures mark { self.new.mark ≡ self.old.mark }
        ensures turned { InSound (N.sound nodes.old) (Remembers self.old.walk self.old.stage self.old.moves self.old.ways) (N.world nodes.old) (Turned (N.sound nodes.new) self.old.walk self.new.stage (PutsKeys self.old.walk result) (N.world nodes.old) (N.world nodes.new)) }
        ensures rule { IsTurned result self.old.walk (N.world nodes.old) (N.world nodes.new) (N.left nodes.old) (N.left nodes.new) self.old.stage self.new.stage }
        ensures counted { InSound (N.sound nodes.old) (Remembers self.old.walk self.old.stage self.old.moves self.old.ways) (N.world nodes.old) (λ lost. IsCounted self.new.stage self.new.moves (with_lost lost (N.world nodes.new))) }
        ensures moves { self.new.moves ≡ moves_after (spot_of self.old.stage) (spot_of self.new.stage) self.old.moves }
        ensures role { StaysOutside result self.old.stage self.new.stage self.old.ways.at (N.world nodes.old) }
        ensures come { InSound (N.sound nodes.old) (Remembers self.old.walk self.old.stage self.old.moves self.old.ways) (N.world nodes.old) (λ lost. HasCome self.new.stage self.new.ways (with_lost lost (N.world nodes.new))) }
        ensures comes { OnMore result (Comes self.old.walk (N.world nodes.old) self.old.stage self.new.stage self.old.ways self.new.ways) }
        ensures left { OnMore result (IsLess (left_of self.new.stage self.new.moves (N.world nodes.new) (N.left nodes.new)) (left_of self.old.stage self.old.moves (N.world nodes.old) (N.left nodes.old))) }
        ensures goes { GoesOn result self.new.stage }
        ensures given_back { InSound (N.sound nodes.old) (Remembers self.old.walk self.old.stage self.old.moves self.old.ways) (N.world nodes.old) (λ lost. OnDone result (λ _. HasNone self.old.walk.op (N.world nodes.new))) }
        ensures moves_on { GoesBy result self.old.mark (λ m. N.goes nodes.old m nodes.new) }
        ensures bears { InSound (N.sound nodes.old) (Remembers self.old.walk self.old.stage self.old.moves self.old.ways) (N.world nodes.old) (λ lost. BearsPut self.old.walk self.old.mark result (with_lost lost (N.world nodes.old)) (λ m. N.goes nodes.old m nodes.new)) }
        ensures busy { OnBusy result (IsInTheWay (N.flushes nodes.old) (N.world nodes.old) self.old.walk.op) }
        ensures cause { CausedTurn result (N.faults nodes.old) (N.faults nodes.new) (N.halted nodes.old) (N.halted nodes.new) }
    {
        let from = spot_of(&self.stage);
        let pages = nodes.pages();
        if let Some(page) = circle_at(from, self.moves, pages) {
            return Turn::Refused(nodes.bad(page));
        }
        let turn = put_step(
            self.alloc,
            &self.walk,
            self.mark,
            &mut self.stage,
            &mut self.ways,
            nodes,
            &mut self.node,
        );
        self.moves = moves_after(from, spot_of(&self.stage), self.moves, pages);
        turn
    }
}

/// The turn of a put at a stage.
fn put_step<N: Nodes>(
    alloc: Global,
    walk: &Walk,
    mark: Mark,
    stage: &mut Stage,
    ways: &mut Ways,
    nodes: &mut N,
    node: &mut Node,
) -> Turn<()>
    requires pair { IsPair walk.now.target }
    requires open { IsPutting stage.old }
    requires mark { MayBear (N.allows nodes.old walk.now.op) mark walk.now.target (Adds walk.now.at) }
    ensures turned { InSound (N.sound nodes.old) (IsComing walk.now stage.old ways.old.at) (N.world nodes.old) (Turned (N.sound nodes.new) walk.now stage.new (PutsKeys walk.now result) (N.world nodes.old) (N.world nodes.new)) }
    ensures rule { IsTurned result walk.now (N.world nodes.old) (N.world nodes.new) (N.left nodes.old) (N.left nodes.new) stage.old stage.new }
    ensures role { StaysOutside result stage.old stage.new ways.old.at (N.world nodes.old) }
    ensures goes { GoesOn result stage.new }
    ensures moves_on { GoesBy result mark (λ m. N.goes nodes.old m nodes.new) }
    ensures bears { InSound (N.sound nodes.old) (IsComing walk.now stage.old ways.old.at) (N.world nodes.old) (λ lost. BearsPut walk.now mark result (with_lost lost (N.world nodes.old)) (λ m. N.goes nodes.old m nodes.new)) }
    ensures busy { OnBusy result (IsInTheWay (N.flushes nodes.old) (N.world nodes.old) walk.now.op) }
    ensures cause { CausedTurn result (N.faults nodes.old) (N.faults nodes.new) (N.halted nodes.old) (N.halted nodes.new) }
    ensures follows { Follows result walk.now (N.world nodes.old) stage.old stage.new ways.old ways.new }
{
    let seen = visit(walk.op, looked_at(stage), &ways.at, nodes);
    if !is_done(&seen) {
        return seen;
    }
    put_seen(alloc, walk, mark, stage, ways, nodes, node)
}

/// The turn of a put at a stage, once the page that it looks at is at hand.
fn put_seen<N: Nodes>(
    alloc: Global,
    walk: &Walk,
    mark: Mark,
    stage: &mut Stage,
    ways: &mut Ways,
    nodes: &mut N,
    node: &mut Node,
) -> Turn<()>
    requires pair { IsPair walk.now.target }
    requires open { IsPutting stage.old }
    requires mark { MayBear (N.allows nodes.old walk.now.op) mark walk.now.target (Adds walk.now.at) }
    requires shown { IfSome (looked_at stage.old) (N.shows nodes.old) }
    ensures turned { Turns (N.sound nodes.old) (N.sound nodes.new) walk.now stage.old stage.new (PutsKeys walk.now result) (N.world nodes.old) (N.world nodes.new) }
    ensures rule { IsTurned result walk.now (N.world nodes.old) (N.world nodes.new) (N.left nodes.old) (N.left nodes.new) stage.old stage.new }
    ensures goes { GoesOn result stage.new }
    ensures moves_on { GoesBy result mark (λ m. N.goes nodes.old m nodes.new) }
    ensures bears { InSound (N.sound nodes.old) (Stands walk.now stage.old) (N.world nodes.old) (λ lost. BearsPut walk.now mark result (with_lost lost (N.world nodes.old)) (λ m. N.goes nodes.old m nodes.new)) }
    ensures busy { OnBusy result (IsInTheWay (N.flushes nodes.old) (N.world nodes.old) walk.now.op) }
    ensures cause { CausedTurn result (N.faults nodes.old) (N.faults nodes.new) (N.halted nodes.old) (N.halted nodes.new) }
    ensures follows { Follows result walk.now (N.world nodes.old) stage.old stage.new ways.old ways.new }
{
    match *stage {
        Stage::Start => start(walk, stage, &mut ways.at, nodes),
        Stage::Down { page } => descend(alloc, walk, page, stage, &mut ways.at, nodes),
        Stage::Leaf { page } => own_leaf(walk, page, stage, nodes),
        Stage::Held { page } => put_held(alloc, walk, mark, page, stage, &mut ways.at, nodes, node),
        Stage::Full { page } => allocate(walk, page, stage, nodes),
        Stage::Split { page, right } => write_right(walk, page, right, stage, nodes, node),
        Stage::Cut { page, right } => cut_left(alloc, walk, page, right, stage, nodes, node),
        Stage::Post {
            separator: _,
            rise: _,
        } => step_up(alloc, walk, stage, ways, nodes, node),
        Stage::Share { page: _, above: _ } => unreachable!(),
        Stage::Shared { page: _, above: _ } => unreachable!(),
        Stage::SharedLeft { page: _ } => unreachable!(),
        Stage::Left {
            low: _,
            or_at: _,
            way: _,
        } => unreachable!(),
        Stage::Ended => unreachable!(),
    }
}

/// Looks at the leaf again, now that it is the operation's own: goes on to the right, or puts the
/// pair.
pub(crate) fn put_held<N: Nodes>(
    alloc: Global,
    walk: &Walk,
    mark: Mark,
    page: u64,
    stage: &mut Stage,
    reach: &mut Reach,
    nodes: &mut N,
    node: &mut Node,
) -> Turn<()>
    requires at { stage.old ≡ Stage.Held page }
    requires pair { IsPair walk.now.target }
    requires mark { MayBear (N.allows nodes.old walk.now.op) mark walk.now.target (Adds walk.now.at) }
    requires shown { N.shows nodes.old page }
    ensures turned { Turns (N.sound nodes.old) (N.sound nodes.new) walk.now (Stage.Held page) stage.new (PutsKeys walk.now result) (N.world nodes.old) (N.world nodes.new) }
    ensures rule { IsTurned result walk.now (N.world nodes.old) (N.world nodes.new) (N.left nodes.old) (N.left nodes.new) (Stage.Held page) stage.new }
    ensures goes { GoesOn result stage.new }
    ensures moves_on { GoesBy result mark (λ m. N.goes nodes.old m nodes.new) }
    ensures bears { InSound (N.sound nodes.old) (Stands walk.now (Stage.Held page)) (N.world nodes.old) (λ lost. BearsPut walk.now mark result (with_lost lost (N.world nodes.old)) (λ m. N.goes nodes.old m nodes.new)) }
    ensures busy { OnBusy result (IsInTheWay (N.flushes nodes.old) (N.world nodes.old) walk.now.op) }
    ensures cause { CausedTurn result (N.faults nodes.old) (N.faults nodes.new) (N.halted nodes.old) (N.halted nodes.new) }
    ensures arrives { Arrives result walk.now (N.world nodes.old) (Stage.Held page) stage.new reach.old reach.new }
{
    nodes.node(page).copy_into(node);
    if node.is_past(&walk.target) {
        let right = node.right();
        if right == page {
            return Turn::Refused(nodes.bad(page));
        }
        node.come_right(alloc, reach);
        nodes.free(walk.op, page);
        *stage = Stage::Down { page: right };
        return Turn::More;
    }
    put_here(walk, mark, page, stage, nodes, node)
}

/// Puts the pair into the leaf, unless it is there. A full leaf is to be split first.
fn put_here<N: Nodes>(
    walk: &Walk,
    mark: Mark,
    page: u64,
    stage: &mut Stage,
    nodes: &mut N,
    node: &mut Node,
) -> Turn<()>
    requires at { stage.old ≡ Stage.Held page }
    requires pair { IsPair walk.now.target }
    requires mark { MayBear (N.allows nodes.old walk.now.op) mark walk.now.target (Adds walk.now.at) }
    requires seen { page_at (N.world nodes.old) page ≡ Holds node.old }
    requires within { is_past node.old.high walk.now.target ≡ false }
    ensures turned { Turns (N.sound nodes.old) (N.sound nodes.new) walk.now (Stage.Held page) stage.new (PutsKeys walk.now result) (N.world nodes.old) (N.world nodes.new) }
    ensures rule { IsTurned result walk.now (N.world nodes.old) (N.world nodes.new) (N.left nodes.old) (N.left nodes.new) (Stage.Held page) stage.new }
    ensures goes { GoesOn result stage.new }
    ensures moves_on { GoesBy result mark (λ m. N.goes nodes.old m nodes.new) }
    ensures bears { InSound (N.sound nodes.old) (Stands walk.now (Stage.Held page)) (N.world nodes.old) (λ lost. BearsPut walk.now mark result (with_lost lost (N.world nodes.old)) (λ m. N.goes nodes.old m nodes.new)) }
    ensures busy { OnBusy result (IsInTheWay (N.flushes nodes.old) (N.world nodes.old) walk.now.op) }
    ensures cause { CausedTurn result (N.faults nodes.old) (N.faults nodes.new) (N.halted nodes.old) (N.halted nodes.new) }
{
    let Target::At(pair) = &walk.target else {
        unreachable!();
    };
    if !is_for(node, pair) {
        return Turn::Refused(nodes.bad(page));
    }
    if node.has(pair) {
        nodes.free(walk.op, page);
        *stage = Stage::Ended;
        return Turn::Done(());
    }
    if !node.fits() {
        *stage = Stage::Full { page };
        return Turn::More;
    }
    node.put(pair);
    let _count = node.count();
    let edited = nodes.edit(walk.op, page, node, mark);
    if !is_done(&edited) {
        return edited;
    }
    nodes.free(walk.op, page);
    *stage = Stage::Ended;
    Turn::Done(())
}
