//! A list of turns of any operations over one set of nodes.

ghost use Rattle.std.specs.Prelude.{◌≡◌, ◌<◌, ℕ, List, map, length, slice_get, OnErr, IfOk};
ghost use Rattle.std.specs.List.{All};
ghost use Rattle.ct_node.specs.declared.root.Root.{Root};
ghost use Rattle.ct_definitions.specs.Pairs.{Pair};
ghost use Rattle.ct_node.specs.Worlds.{with_lost};
ghost use Rattle.ct_tree_laws.specs.Trees.{Chain};
ghost use Rattle.ct_tree_laws.specs.Stands.{InSound};
ghost use Rattle.ct_tree.specs.Schedules.{task_of, mark_of, op_of, IsReady, MayMark, AllStand, HaveOwnNumbers, Runs, HappensAt, places_of};

use crate::program::{Answer, Happened, Program, turn};
use ct_disk::Turn;
use ct_items::NoMemory;
use ct_node::Nodes;
use std::alloc::Global;

/// Gives one turn to each program named by the schedule, by its place. What happened is listed in
/// order: each answer of a search is the pair that it seeks among those that stand at that point,
/// each put or take that ends changes its one pair, and no other turn changes any.
///
/// Want of memory is found before the first turn.
pub fn run<N: Nodes>(
    alloc: Global,
    programs: &mut [Program],
    schedule: &[usize],
    nodes: &mut N,
) -> Result<Vec<Happened>, NoMemory>
    requires places { All (λ place. place < length programs.old) schedule.now }
    requires numbers { HaveOwnNumbers programs.old }
    requires ready { All IsReady programs.old }
    requires marks { (any : N) → All (MayMark (N.allows any)) programs.old }
    ensures runs { IfOk result (λ happened. InSound (N.sound nodes.old) (AllStand programs.old) (N.world nodes.old) (λ lost. (at : Root) (keys : List Pair) → Chain (with_lost lost (N.world nodes.old)) at keys → (now : List Pair) × Runs at (map task_of programs.old) happened.items keys now × Chain (with_lost lost (N.world nodes.new)) at now)) }
    ensures places { IfOk result (λ happened. places_of happened.items ≡ schedule.now) }
    ensures stands { InSound (N.sound nodes.old) (AllStand programs.old) (N.world nodes.old) (λ lost. N.sound nodes.new lost × AllStand programs.new (with_lost lost (N.world nodes.new))) }
    ensures numbers { map op_of programs.new ≡ map op_of programs.old }
    ensures tasks { map task_of programs.new ≡ map task_of programs.old }
    ensures ready { All IsReady programs.new }
    ensures err { OnErr result (N.world nodes.new ≡ N.world nodes.old) }
{
    let mut happened = Vec::with_capacity(alloc, schedule.len())?;
    for place in schedule {
        let answer = turn_at(programs, *place, nodes);
        happened.push_reserved(Happened {
            program: *place,
            turn: answer,
        });
    }
    Ok(happened)
}

/// One turn of the program at a place.
fn turn_at<N: Nodes>(programs: &mut [Program], place: usize, nodes: &mut N) -> Turn<Answer>
    requires place { place < length programs.old }
    requires numbers { HaveOwnNumbers programs.old }
    requires ready { All IsReady programs.old }
    requires marks { (any : N) → All (MayMark (N.allows any)) programs.old }
    ensures stands { InSound (N.sound nodes.old) (AllStand programs.old) (N.world nodes.old) (λ lost. N.sound nodes.new lost × AllStand programs.new (with_lost lost (N.world nodes.new))) }
    ensures numbers { map op_of programs.new ≡ map op_of programs.old }
    ensures tasks { map task_of programs.new ≡ map task_of programs.old }
    ensures ready { All IsReady programs.new }
    ensures marks { map mark_of programs.new ≡ map mark_of programs.old }
    ensures happens { InSound (N.sound nodes.old) (AllStand programs.old) (N.world nodes.old) (λ lost. (at : Root) (keys : List Pair) → Chain (with_lost lost (N.world nodes.old)) at keys → (now : List Pair) × HappensAt at (slice_get (map task_of programs.old) place) result keys now × Chain (with_lost lost (N.world nodes.new)) at now) }
{
    turn(&mut programs[place], nodes)
}
