//! How an operation has come to its page, and so what the node there must be. An operation goes on
//! from no page outside its role.

ghost use Rattle.std.specs.Prelude.{◌≡◌, ◌==◌, ℕ, false, IfSome, Some, if◌then◌else◌};
ghost use Rattle.ct_node.specs.Turns.{OnMore};
ghost use Rattle.ct_node.specs.Worlds.{World};
ghost use Rattle.ct_tree_laws.specs.declared.walk.Walk.{Walk};
ghost use Rattle.ct_tree_laws.specs.declared.walk.Stage.{Stage};
ghost use Rattle.ct_node.specs.declared.reach.Reach.{Reach};
ghost use Rattle.ct_tree_laws.specs.Stands.{Stands, Stepped};
ghost use Rattle.ct_tree_laws.specs.Reached.{page_of, page_on, page_in, over_of, IsReached, IsOver};
ghost use Rattle.ct_tree.specs.Moves.{looked_at};
ghost use Rattle.ct_tree.specs.Rules.{Goes};
ghost use Rattle.ct_tree.specs.Roles.{is_more, HasRole, CameOver, came_by, finds_leaf, new_ways, over_after, way_after, way_left, way_moved, way_of, way_on, way_up};

use crate::moves::looked_at;
use ct_disk::Turn;
use ct_node::{Node, Nodes, Pair, Reach};
use ct_tree_laws::{Rise, Separator, Stage, Walk, Way};
use std::alloc::Global;
use std::mem::{replace, swap};

/// In a sound store the page that an operation looks at is in its role, and
/// what it remembers of how it came to its page and to the page above stands after each turn.
pub fn pages_are_in_their_roles()
    ensures role { (walk : Walk) (w : World) (at : Stage) (reach : Reach) → Stands walk at w → IsReached at reach w → HasRole (looked_at at) reach w }
    ensures reached { (walk : Walk) (w now : World) (from to : Stage) (reach over : Reach) → Stands walk from w → Stepped walk to w now → Goes walk w now from to → IsReached from reach w → IsOver from over w → IsReached to (came_by walk w from to reach over) now }
    ensures over { (walk : Walk) (w now : World) (from to : Stage) (reach over after : Reach) → Stands walk from w → Stepped walk to w now → Goes walk w now from to → IsReached from reach w → IsOver from over w → CameOver from to reach over after → IsOver to after now }
{}

/// The page that an operation has come to, if it is at one.
fn page_of(stage: &Stage) -> Option<u64>
    ensures { result ≡ page_of stage.now }
{
    match stage {
        Stage::Start => None,
        Stage::Down { page } => Some(*page),
        Stage::Leaf { page } => Some(*page),
        Stage::Held { page } => Some(*page),
        Stage::Full { page } => Some(*page),
        Stage::Split { page, right: _ } => Some(*page),
        Stage::Cut { page, right: _ } => Some(*page),
        Stage::Share { page, above: _ } => Some(*page),
        Stage::Shared { page, above: _ } => Some(*page),
        Stage::SharedLeft { page } => Some(*page),
        Stage::Left {
            low: _,
            or_at: _,
            way,
        } => page_on(way),
        Stage::Post { separator, rise } => page_in(separator, rise),
        Stage::Ended => None,
    }
}

/// The page that a search to the left has come to on its way to the next leaf.
fn page_on(way: &Way) -> Option<u64>
    ensures { result ≡ page_on way.now }
{
    match way {
        Way::Start => None,
        Way::Down { page } => Some(*page),
        Way::Leaf { page } => Some(*page),
        Way::Shared { page } => Some(*page),
    }
}

/// The page that the posting of a separator has come to.
fn page_in(separator: &Separator, rise: &Rise) -> Option<u64>
    ensures { result ≡ page_in separator.now rise.now }
{
    match rise {
        Rise::Root => None,
        Rise::Down { page, above: _ } => Some(*page),
        Rise::Above { page } => Some(*page),
        Rise::Held { page, next: _ } => Some(*page),
        Rise::Full { page } => Some(*page),
        Rise::Fresh { page, right: _ } => Some(*page),
        Rise::Split { page, right: _ } => Some(*page),
        Rise::Cut { page, right: _ } => Some(*page),
        Rise::Again => None,
        Rise::Named => None,
        Rise::Grow => Some(separator.left),
        Rise::Crown { root: _ } => Some(separator.left),
        Rise::Crowned { root: _ } => Some(separator.left),
    }
}

/// The page above, from which the walk to a separator last went down, where it remembers one.
fn over_of(stage: &Stage) -> Option<u64>
    ensures { result ≡ over_of stage.now }
{
    let Stage::Post { separator: _, rise } = stage else {
        return None;
    };
    let Rise::Down { page: _, above } = rise else {
        return None;
    };
    *above
}

/// The way from the page that an operation looks at; the way to the root, where it looks at none.
pub(crate) fn way_of<N: Nodes>(alloc: Global, walk: &Walk, stage: &Stage, nodes: &N) -> Reach
    requires { IfSome (looked_at stage.now) (N.shows nodes.now) }
    ensures { result ≡ way_of walk.now stage.now (N.world nodes.now) }
{
    match looked_at(stage) {
        Some(page) => way_on(alloc, walk, stage, nodes.node(page)),
        None => Reach::root(walk.at, &walk.target),
    }
}

/// The way to the page at which an operation goes on from the node of its page.
fn way_on(alloc: Global, walk: &Walk, stage: &Stage, node: &Node) -> Reach
    ensures { result ≡ way_on walk.now stage.now node.now }
{
    match stage {
        Stage::Down { page: _ } => node.reach_next(alloc, &walk.target),
        Stage::Left { low, or_at: _, way } => way_left(alloc, low, way, node),
        Stage::Post { separator, rise } => way_up(alloc, separator, rise, node),
        _ => node.reach_right(alloc),
    }
}

/// The same on the way of a search to the left.
fn way_left(alloc: Global, low: &Pair, way: &Way, node: &Node) -> Reach
    ensures { result ≡ way_left low.now way.now node.now }
{
    match way {
        Way::Down { page: _ } => node.reach_next_before(alloc, low),
        _ => node.reach_right(alloc),
    }
}

/// The same in the posting of a separator.
fn way_up(alloc: Global, separator: &Separator, rise: &Rise, node: &Node) -> Reach
    ensures { result ≡ way_up separator.now rise.now node.now }
{
    match rise {
        Rise::Down { page: _, above: _ } => node.reach_next_at(alloc, &separator.low),
        Rise::Cut { page: _, right: _ } => node.reach_half(alloc),
        _ => node.reach_right(alloc),
    }
}

/// Whether an operation has found the leaf that it was looking for.
fn finds_leaf(stage: &Stage) -> bool
    ensures { result ≡ finds_leaf stage.now }
{
    match stage {
        Stage::Leaf { page: _ } => true,
        Stage::Left {
            low: _,
            or_at: _,
            way: Way::Leaf { page: _ },
        } => true,
        _ => false,
    }
}

/// How an operation has come to its page; and, on the way to a separator, how it had come to the
/// page above.
#[derive(Debug, Drop)]
pub struct Ways {
    pub at: Reach,
    pub over: Reach,
}

impl Ways {
    /// The ways of an operation that has come to no page yet.
    pub(crate) fn new(walk: &Walk) -> Ways
        ensures { result ≡ new_ways walk.now }
    {
        Ways {
            at: Reach::root(walk.at, &walk.target),
            over: Reach::root(walk.at, &walk.target),
        }
    }

    /// Comes to the page of a stage, where the turn goes on.
    pub(crate) fn follow(
        &mut self,
        walk: &Walk,
        trail: Trail,
        turn: &Turn<()>,
        to: &Stage,
        on: Reach,
    )
        ensures at { OnMore turn.now (self.new.at ≡ way_after walk.now trail.page trail.above trail.found (page_of to.now) to.now self.old.at self.old.over on) }
        ensures over { OnMore turn.now ((above : ℕ) → over_of to.now ≡ Some above → self.new.over ≡ over_after trail.page (page_of to.now) above self.old.at self.old.over) }
        ensures stays { is_more turn.now ≡ false → self.new ≡ self.old }
    {
        if is_more(turn) {
            self.come(walk, trail, to, on);
        }
    }

    /// Comes to the page of a stage along a trail.
    fn come(&mut self, walk: &Walk, trail: Trail, to: &Stage, on: Reach)
        ensures at { self.new.at ≡ way_after walk.now trail.page trail.above trail.found (page_of to.now) to.now self.old.at self.old.over on }
        ensures over { (above : ℕ) → over_of to.now ≡ Some above → self.new.over ≡ over_after trail.page (page_of to.now) above self.old.at self.old.over }
    {
        let Some(next) = page_of(to) else {
            return;
        };
        let Some(page) = trail.page else {
            self.at = Reach::root(walk.at, &walk.target);
            return;
        };
        if page == next {
            if finds_leaf(to) && !trail.found {
                self.at.leaf = Some(true);
            }
            return;
        }
        self.move_on(page, trail.above, over_of(to), on);
    }

    /// Comes to another page. The page above is then this one, if it is any.
    fn move_on(&mut self, page: u64, from: Option<u64>, above: Option<u64>, on: Reach)
        ensures at { self.new.at ≡ way_moved from above self.old.over on }
        ensures over { (over : ℕ) → above ≡ Some over → self.new.over ≡ if page == over then self.old.at else self.old.over }
    {
        match above {
            Some(over) => {
                if page == over {
                    self.over = replace(&mut self.at, on);
                    return;
                }
                self.at = on;
            }
            None => {
                if from.is_some() {
                    swap(&mut self.at, &mut self.over);
                    return;
                }
                self.at = on;
            }
        }
    }
}

/// Where an operation comes from: its page, the page above that it remembers, and whether it has
/// found its leaf.
#[derive(Clone, Copy)]
pub(crate) struct Trail {
    page: Option<u64>,
    above: Option<u64>,
    found: bool,
}

impl Trail {
    pub(crate) fn of(stage: &Stage) -> Trail
        ensures { result ≡ record { page = page_of stage.now; above = over_of stage.now; found = finds_leaf stage.now } }
    {
        Trail {
            page: page_of(stage),
            above: over_of(stage),
            found: finds_leaf(stage),
        }
    }
}

/// Whether a turn is to be followed by another.
fn is_more(turn: &Turn<()>) -> bool
    ensures { result ≡ is_more turn.now }
{
    match turn {
        Turn::More => true,
        Turn::Done(()) => false,
        Turn::Busy { op: _ } => false,
        Turn::Refused(_) => false,
    }
}
