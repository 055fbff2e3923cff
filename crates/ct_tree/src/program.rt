//! An operation of any kind, and what its turn has done.

ghost use Rattle.std.specs.Prelude.{◌≡◌, ◌⊎◌, ℕ, List, true, false};
ghost use Rattle.ct_node.specs.Turns.{OnBusy, OnMore, CausedTurn};
ghost use Rattle.ct_node.specs.declared.root.Root.{Root};
ghost use Rattle.ct_definitions.specs.Pairs.{Pair};
ghost use Rattle.ct_tree_laws.specs.Trees.{Chain};
ghost use Rattle.ct_node.specs.Worlds.{Adds, Drops, with_lost};
ghost use Rattle.ct_tree_laws.specs.Stands.{InSound, Stepped};
ghost use Rattle.ct_tree.specs.Schedules.{walk_of, mark_of, stage_of, moves_of, ways_of, task_of, is_ended, IsStanding, IsReady, MayMark, Happens, Puts, Takes, Searches};
ghost use Rattle.ct_tree.specs.Counted.{IsCounted};
ghost use Rattle.ct_tree.specs.Remembered.{Remembers};
ghost use Rattle.ct_tree.specs.Roles.{HasCome};
ghost use Rattle.ct_tree.specs.Answers.{IsPair, MayBear, IsInTheWay, IsPutting, IsTaking, IsSearchingBy};
ghost use Rattle.ct_tree.specs.Ends.{left_of, IsLess};

use crate::put::Put;
use crate::search::Search;
use crate::take::Take;
use ct_disk::Turn;
use ct_node::{Nodes, Pair};
use ct_tree_laws::Stage;

/// An operation on a tree.
#[derive(Drop)]
pub enum Program {
    Put(Put),
    Take(Take),
    Search(Search),
}

/// What a call that has ended tells.
#[derive(Drop)]
pub enum Answer {
    /// The pair is put.
    Put,
    /// The pair is taken; whether it was there.
    Taken(bool),
    /// The pair found, if any.
    Found(Option<Pair>),
}

/// A turn of the program at a place.
#[derive(Drop)]
pub struct Happened {
    pub program: usize,
    pub turn: Turn<Answer>,
}

/// One turn of an operation. One that has ended answers `More` and does nothing; of any other a turn
/// that answers `More` leaves less.
pub fn turn<N: Nodes>(program: &mut Program, nodes: &mut N) -> Turn<Answer>
    requires ready { IsReady program.old }
    requires mark { MayMark (N.allows nodes.old) program.old }
    ensures walk { walk_of program.new ≡ walk_of program.old }
    ensures mark { mark_of program.new ≡ mark_of program.old }
    ensures task { task_of program.new ≡ task_of program.old }
    ensures ready { IsReady program.new }
    ensures counted { InSound (N.sound nodes.old) (λ w. IsStanding w program.old) (N.world nodes.old) (λ lost. IsCounted (stage_of program.new) (moves_of program.new) (with_lost lost (N.world nodes.new))) }
    ensures come { InSound (N.sound nodes.old) (λ w. IsStanding w program.old) (N.world nodes.old) (λ lost. HasCome (stage_of program.new) (ways_of program.new) (with_lost lost (N.world nodes.new))) }
    ensures stepped { InSound (N.sound nodes.old) (λ w. IsStanding w program.old) (N.world nodes.old) (λ lost. N.sound nodes.new lost × Stepped (walk_of program.old) (stage_of program.new) (with_lost lost (N.world nodes.old)) (with_lost lost (N.world nodes.new))) }
    ensures busy { OnBusy result (IsInTheWay (N.flushes nodes.old) (N.world nodes.old) (walk_of program.old).op) }
    ensures cause { CausedTurn result (N.faults nodes.old) (N.faults nodes.new) (N.halted nodes.old) (N.halted nodes.new) }
    ensures left { is_ended (stage_of program.old) ≡ false → OnMore result (IsLess (left_of (stage_of program.new) (moves_of program.new) (N.world nodes.new) (N.left nodes.new)) (left_of (stage_of program.old) (moves_of program.old) (N.world nodes.old) (N.left nodes.old))) }
    ensures ended { is_ended (stage_of program.old) ≡ true → (result ≡ Turn.More) × (program.new ≡ program.old) × (N.world nodes.new ≡ N.world nodes.old) }
    ensures happens { InSound (N.sound nodes.old) (λ w. IsStanding w program.old) (N.world nodes.old) (λ lost. (at : Root) (keys : List Pair) → Chain (with_lost lost (N.world nodes.old)) at keys → (now : List Pair) × Happens at (task_of program.old) result keys now × Chain (with_lost lost (N.world nodes.new)) at now) }
{
    match program {
        Program::Put(put) => return turn_put(put, nodes),
        Program::Take(take) => return turn_take(take, nodes),
        Program::Search(search) => return turn_search(search, nodes),
    }
}

/// Whether a stage is the last one.
fn is_ended(stage: &Stage) -> bool
    ensures { result ≡ is_ended stage.now }
{
    match stage {
        Stage::Ended => true,
        Stage::Start => false,
        Stage::Down { page: _ } => false,
        Stage::Leaf { page: _ } => false,
        Stage::Held { page: _ } => false,
        Stage::Full { page: _ } => false,
        Stage::Split { page: _, right: _ } => false,
        Stage::Cut { page: _, right: _ } => false,
        Stage::Share { page: _, above: _ } => false,
        Stage::Shared { page: _, above: _ } => false,
        Stage::SharedLeft { page: _ } => false,
        Stage::Left {
            low: _,
            or_at: _,
            way: _,
        } => false,
        Stage::Post {
            separator: _,
            rise: _,
        } => false,
    }
}

fn turn_put<N: Nodes>(put: &mut Put, nodes: &mut N) -> Turn<Answer>
    requires pair { IsPair put.old.walk.target }
    requires ready { IsPutting put.old.stage ⊎ (put.old.stage ≡ Stage.Ended) }
    requires mark { MayBear (N.allows nodes.old put.old.walk.op) put.old.mark put.old.walk.target (Adds put.old.walk.at) }
    ensures walk { put.new.walk ≡ put.old.walk }
    ensures mark { put.new.mark ≡ put.old.mark }
    ensures ready { IsPutting put.new.stage ⊎ (put.new.stage ≡ Stage.Ended) }
    ensures stepped { InSound (N.sound nodes.old) (Remembers put.old.walk put.old.stage put.old.moves put.old.ways) (N.world nodes.old) (λ lost. N.sound nodes.new lost × Stepped put.old.walk put.new.stage (with_lost lost (N.world nodes.old)) (with_lost lost (N.world nodes.new))) }
    ensures counted { InSound (N.sound nodes.old) (Remembers put.old.walk put.old.stage put.old.moves put.old.ways) (N.world nodes.old) (λ lost. IsCounted put.new.stage put.new.moves (with_lost lost (N.world nodes.new))) }
    ensures come { InSound (N.sound nodes.old) (Remembers put.old.walk put.old.stage put.old.moves put.old.ways) (N.world nodes.old) (λ lost. HasCome put.new.stage put.new.ways (with_lost lost (N.world nodes.new))) }
    ensures busy { OnBusy result (IsInTheWay (N.flushes nodes.old) (N.world nodes.old) put.old.walk.op) }
    ensures cause { CausedTurn result (N.faults nodes.old) (N.faults nodes.new) (N.halted nodes.old) (N.halted nodes.new) }
    ensures left { is_ended put.old.stage ≡ false → OnMore result (IsLess (left_of put.new.stage put.new.moves (N.world nodes.new) (N.left nodes.new)) (left_of put.old.stage put.old.moves (N.world nodes.old) (N.left nodes.old))) }
    ensures ended { is_ended put.old.stage ≡ true → (result ≡ Turn.More) × (put.new ≡ put.old) × (N.world nodes.new ≡ N.world nodes.old) }
    ensures happens { InSound (N.sound nodes.old) (Remembers put.old.walk put.old.stage put.old.moves put.old.ways) (N.world nodes.old) (λ lost. (at : Root) (keys : List Pair) → Chain (with_lost lost (N.world nodes.old)) at keys → (now : List Pair) × Happens at (Puts put.old.walk.at put.old.walk.target) result keys now × Chain (with_lost lost (N.world nodes.new)) at now) }
{
    if is_ended(&put.stage) {
        return Turn::More;
    }
    match put.turn(nodes) {
        Turn::Done(()) => return Turn::Done(Answer::Put),
        Turn::More => return Turn::More,
        Turn::Busy { op } => return Turn::Busy { op },
        Turn::Refused(fault) => return Turn::Refused(fault),
    }
}

fn turn_take<N: Nodes>(take: &mut Take, nodes: &mut N) -> Turn<Answer>
    requires pair { IsPair take.old.walk.target }
    requires ready { IsTaking take.old.stage ⊎ (take.old.stage ≡ Stage.Ended) }
    requires mark { MayBear (N.allows nodes.old take.old.walk.op) take.old.mark take.old.walk.target (Drops take.old.walk.at) }
    ensures walk { take.new.walk ≡ take.old.walk }
    ensures mark { take.new.mark ≡ take.old.mark }
    ensures ready { IsTaking take.new.stage ⊎ (take.new.stage ≡ Stage.Ended) }
    ensures stepped { InSound (N.sound nodes.old) (Remembers take.old.walk take.old.stage take.old.moves take.old.ways) (N.world nodes.old) (λ lost. N.sound nodes.new lost × Stepped take.old.walk take.new.stage (with_lost lost (N.world nodes.old)) (with_lost lost (N.world nodes.new))) }
    ensures counted { InSound (N.sound nodes.old) (Remembers take.old.walk take.old.stage take.old.moves take.old.ways) (N.world nodes.old) (λ lost. IsCounted take.new.stage take.new.moves (with_lost lost (N.world nodes.new))) }
    ensures come { InSound (N.sound nodes.old) (Remembers take.old.walk take.old.stage take.old.moves take.old.ways) (N.world nodes.old) (λ lost. HasCome take.new.stage take.new.ways (with_lost lost (N.world nodes.new))) }
    ensures busy { OnBusy result (IsInTheWay (N.flushes nodes.old) (N.world nodes.old) take.old.walk.op) }
    ensures cause { CausedTurn result (N.faults nodes.old) (N.faults nodes.new) (N.halted nodes.old) (N.halted nodes.new) }
    ensures left { is_ended take.old.stage ≡ false → OnMore result (IsLess (left_of take.new.stage take.new.moves (N.world nodes.new) (N.left nodes.new)) (left_of take.old.stage take.old.moves (N.world nodes.old) (N.left nodes.old))) }
    ensures ended { is_ended take.old.stage ≡ true → (result ≡ Turn.More) × (take.new ≡ take.old) × (N.world nodes.new ≡ N.world nodes.old) }
    ensures happens { InSound (N.sound nodes.old) (Remembers take.old.walk take.old.stage take.old.moves take.old.ways) (N.world nodes.old) (λ lost. (at : Root) (keys : List Pair) → Chain (with_lost lost (N.world nodes.old)) at keys → (now : List Pair) × Happens at (Takes take.old.walk.at take.old.walk.target) result keys now × Chain (with_lost lost (N.world nodes.new)) at now) }
{
    if is_ended(&take.stage) {
        return Turn::More;
    }
    match take.turn(nodes) {
        Turn::Done(found) => return Turn::Done(Answer::Taken(found)),
        Turn::More => return Turn::More,
        Turn::Busy { op } => return Turn::Busy { op },
        Turn::Refused(fault) => return Turn::Refused(fault),
    }
}

fn turn_search<N: Nodes>(search: &mut Search, nodes: &mut N) -> Turn<Answer>
    requires ready { IsSearchingBy search.old.seek search.old.stage ⊎ (search.old.stage ≡ Stage.Ended) }
    ensures walk { search.new.walk ≡ search.old.walk }
    ensures seek { search.new.seek ≡ search.old.seek }
    ensures ready { IsSearchingBy search.new.seek search.new.stage ⊎ (search.new.stage ≡ Stage.Ended) }
    ensures stepped { InSound (N.sound nodes.old) (Remembers search.old.walk search.old.stage search.old.moves search.old.ways) (N.world nodes.old) (λ lost. N.sound nodes.new lost × Stepped search.old.walk search.new.stage (with_lost lost (N.world nodes.old)) (with_lost lost (N.world nodes.new))) }
    ensures counted { InSound (N.sound nodes.old) (Remembers search.old.walk search.old.stage search.old.moves search.old.ways) (N.world nodes.old) (λ lost. IsCounted search.new.stage search.new.moves (with_lost lost (N.world nodes.new))) }
    ensures come { InSound (N.sound nodes.old) (Remembers search.old.walk search.old.stage search.old.moves search.old.ways) (N.world nodes.old) (λ lost. HasCome search.new.stage search.new.ways (with_lost lost (N.world nodes.new))) }
    ensures busy { OnBusy result (IsInTheWay (N.flushes nodes.old) (N.world nodes.old) search.old.walk.op) }
    ensures cause { CausedTurn result (N.faults nodes.old) (N.faults nodes.new) (N.halted nodes.old) (N.halted nodes.new) }
    ensures left { is_ended search.old.stage ≡ false → OnMore result (IsLess (left_of search.new.stage search.new.moves (N.world nodes.new) (N.left nodes.new)) (left_of search.old.stage search.old.moves (N.world nodes.old) (N.left nodes.old))) }
    ensures ended { is_ended search.old.stage ≡ true → (result ≡ Turn.More) × (search.new ≡ search.old) × (N.world nodes.new ≡ N.world nodes.old) }
    ensures happens { InSound (N.sound nodes.old) (Remembers search.old.walk search.old.stage search.old.moves search.old.ways) (N.world nodes.old) (λ lost. (at : Root) (keys : List Pair) → Chain (with_lost lost (N.world nodes.old)) at keys → (now : List Pair) × Happens at (Searches search.old.walk.at search.old.walk.target search.old.seek) result keys now × Chain (with_lost lost (N.world nodes.new)) at now) }
{
    if is_ended(&search.stage) {
        return Turn::More;
    }
    match search.turn(nodes) {
        Turn::Done(found) => return Turn::Done(Answer::Found(found)),
        Turn::More => return Turn::More,
        Turn::Busy { op } => return Turn::Busy { op },
        Turn::Refused(fault) => return Turn::Refused(fault),
    }
}
