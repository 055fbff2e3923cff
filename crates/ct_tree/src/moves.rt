//! Where an operation is between two turns, and how many moves to another page its walk has made. A
//! walk that has made as many moves as there are pages goes in a circle.

ghost use Rattle.std.specs.Prelude.{◌≡◌, ◌<◌, ℕ, List, IfSome};
ghost use Rattle.ct_tree_laws.specs.Trees.{IsApart};
ghost use Rattle.ct_tree_laws.specs.Stands.{Stands, Stepped};
ghost use Rattle.ct_tree.specs.Counted.{IsCounted};
ghost use Rattle.ct_node.specs.Worlds.{World};
ghost use Rattle.ct_tree_laws.specs.declared.walk.Walk.{Walk};
ghost use Rattle.ct_tree_laws.specs.declared.walk.Stage.{Stage};
ghost use Rattle.ct_tree.specs.Moves.{looked_at, looked_on, looked_in, coming, found, coming_above, found_above, spot_on, spot_in, spot_of, waits, moves_after, circle_at, MayMove};
ghost use Rattle.ct_tree.specs.Rules.{IsOneTurn};
ghost use Rattle.ct_tree.specs.Ends.{left_of, IsLess, IsDescent};

use ct_tree_laws::{Rise, Separator, Stage, Way};

/// Where an operation is: at a page that its walk has come to and that it has not looked at yet, or
/// at one that it has found; and whether that is on the level above a split.
#[derive(Clone, Copy)]
pub struct Spot {
    pub page: u64,
    pub comes: bool,
    pub above: bool,
}

/// A turn that answers `More` leaves less of its call: by the moves that its walk may make yet, by
/// the splits that full nodes allow, or by the pages' own work. And less can't be left for
/// ever: no endless list of such lists descends.
pub fn turns_come_to_an_end()
    ensures less { (walk : Walk) (w now : World) (before after : ℕ) (from to : Stage) (moves : ℕ) → IsOneTurn walk w now before after from to → MayMove from moves w → IsLess (left_of to (moves_after (spot_of from) (spot_of to) moves) now after) (left_of from moves w before) }
    ensures ends { (n : ℕ) (chain : ℕ → List ℕ) → IsDescent n chain → ⊥ }
{}

/// In a sound store a walk comes to no page twice: each move that is counted
/// is to a lower level, or further right on the same one. So it has made fewer moves than there are
/// pages.
pub fn walks_go_in_no_circle()
    ensures moves { (w : World) (at : Stage) (moves : ℕ) → IsApart w → IsCounted at moves w → MayMove at moves w }
    ensures counted { (walk : Walk) (w now : World) (before after : ℕ) (from to : Stage) (moves : ℕ) → Stands walk from w → Stepped walk to w now → IsOneTurn walk w now before after from to → IsCounted from moves w → IsCounted to (moves_after (spot_of from) (spot_of to) moves) now }
{}

/// At a page that a walk has come to.
fn coming(page: u64) -> Option<Spot>
    ensures { result ≡ coming page }
{
    Some(Spot {
        page,
        comes: true,
        above: false,
    })
}

/// At a page that a walk has found.
fn found(page: u64) -> Option<Spot>
    ensures { result ≡ found page }
{
    Some(Spot {
        page,
        comes: false,
        above: false,
    })
}

/// The same on the level above a split.
fn coming_above(page: u64) -> Option<Spot>
    ensures { result ≡ coming_above page }
{
    Some(Spot {
        page,
        comes: true,
        above: true,
    })
}

fn found_above(page: u64) -> Option<Spot>
    ensures { result ≡ found_above page }
{
    Some(Spot {
        page,
        comes: false,
        above: true,
    })
}

/// Where an operation is, if it is at a page.
pub(crate) fn spot_of(stage: &Stage) -> Option<Spot>
    ensures { result ≡ spot_of stage.now }
{
    match stage {
        Stage::Start => return None,
        Stage::Down { page } => return coming(*page),
        Stage::Leaf { page } => return found(*page),
        Stage::Held { page } => return found(*page),
        Stage::Full { page } => return found(*page),
        Stage::Split { page, right: _ } => return found(*page),
        Stage::Cut { page, right: _ } => return found(*page),
        Stage::Share { page, above: _ } => return coming(*page),
        Stage::Shared { page, above: _ } => return found(*page),
        Stage::SharedLeft { page } => return found(*page),
        Stage::Left {
            low: _,
            or_at: _,
            way,
        } => return spot_on(way),
        Stage::Post { separator: _, rise } => return spot_in(rise),
        Stage::Ended => return None,
    }
}

/// Where a search to the left is on its way to the next leaf.
fn spot_on(way: &Way) -> Option<Spot>
    ensures { result ≡ spot_on way.now }
{
    match way {
        Way::Start => return None,
        Way::Down { page } => return coming(*page),
        Way::Leaf { page } => return found(*page),
        Way::Shared { page } => return found(*page),
    }
}

/// Where the posting of a separator is. A half of a split is at no page of a walk.
fn spot_in(rise: &Rise) -> Option<Spot>
    ensures { result ≡ spot_in rise.now }
{
    match rise {
        Rise::Root => return None,
        Rise::Down { page, above: _ } => return coming(*page),
        Rise::Above { page } => return coming_above(*page),
        Rise::Held { page, next: None } => return found_above(*page),
        Rise::Held {
            page: _,
            next: Some(_),
        } => return None,
        Rise::Full { page } => return found_above(*page),
        Rise::Fresh { page, right: _ } => return found_above(*page),
        Rise::Split { page, right: _ } => return found_above(*page),
        Rise::Cut { page, right: _ } => return found_above(*page),
        Rise::Again => return None,
        Rise::Named => return None,
        Rise::Grow => return None,
        Rise::Crown { root: _ } => return None,
        Rise::Crowned { root: _ } => return None,
    }
}

/// The page that an operation looks at in its turn, if it looks at one.
pub(crate) fn looked_at(stage: &Stage) -> Option<u64>
    ensures { result ≡ looked_at stage.now }
{
    match stage {
        Stage::Start => return None,
        Stage::Down { page } => return Some(*page),
        Stage::Leaf { page: _ } => return None,
        Stage::Held { page } => return Some(*page),
        Stage::Full { page: _ } => return None,
        Stage::Split { page, right: _ } => return Some(*page),
        Stage::Cut { page, right: _ } => return Some(*page),
        Stage::Share { page: _, above: _ } => return None,
        Stage::Shared { page, above: _ } => return Some(*page),
        Stage::SharedLeft { page } => return Some(*page),
        Stage::Left {
            low: _,
            or_at: _,
            way,
        } => return looked_on(way),
        Stage::Post { separator, rise } => return looked_in(separator, rise),
        Stage::Ended => return None,
    }
}

/// The page that a search to the left looks at on its way to the next leaf.
fn looked_on(way: &Way) -> Option<u64>
    ensures { result ≡ looked_on way.now }
{
    match way {
        Way::Start => return None,
        Way::Down { page } => return Some(*page),
        Way::Leaf { page: _ } => return None,
        Way::Shared { page } => return Some(*page),
    }
}

/// The page that is looked at in the posting of a separator.
fn looked_in(separator: &Separator, rise: &Rise) -> Option<u64>
    ensures { result ≡ looked_in separator.now rise.now }
{
    match rise {
        Rise::Root => return None,
        Rise::Down { page, above: _ } => return Some(*page),
        Rise::Above { page: _ } => return None,
        Rise::Held { page, next: _ } => return Some(*page),
        Rise::Full { page: _ } => return None,
        Rise::Fresh { page: _, right: _ } => return None,
        Rise::Split { page, right: _ } => return Some(*page),
        Rise::Cut { page, right: _ } => return Some(*page),
        Rise::Again => return None,
        Rise::Named => return None,
        Rise::Grow => return None,
        Rise::Crown { root: _ } => return Some(separator.left),
        Rise::Crowned { root: _ } => return None,
    }
}

/// The page of a walk that has made as many moves as there are pages: it goes in a circle.
pub(crate) fn circle_at(spot: Option<Spot>, moves: u64, pages: u64) -> Option<u64>
    ensures { result ≡ circle_at spot moves pages }
{
    let Some(spot) = spot else {
        return None;
    };
    if moves < pages { None } else { Some(spot.page) }
}

/// How many moves a walk has made after a turn: at no page none, and one more where it has come to
/// another one. Before the turn it had made fewer than there are pages.
pub(crate) fn moves_after(from: Option<Spot>, to: Option<Spot>, moves: u64, pages: u64) -> u64
    requires { IfSome from (λ _. moves < pages) }
    ensures { result ≡ moves_after from to moves }
{
    let Some(from) = from else {
        return moves;
    };
    let Some(to) = to else {
        return 0;
    };
    if to.above && !from.above {
        return 0;
    }
    if to.comes && !waits(from, to) {
        return moves + 1;
    }
    moves
}

/// Whether a walk has not moved: it waits at the page that it had come to.
fn waits(from: Spot, to: Spot) -> bool
    ensures { result ≡ waits from to }
{
    from.comes && from.page == to.page
}
