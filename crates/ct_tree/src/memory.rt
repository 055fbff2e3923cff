//! Operations on a new index in memory.

ghost use Rattle.std.specs.Prelude.{◌≡◌, ◌≤◌, ◌<◌, ℕ, List, [], map, length, IfOk};
ghost use Rattle.std.specs.List.{All, range_with_len};
ghost use Rattle.ct_definitions.specs.Pairs.{Pair};
ghost use Rattle.ct_tree.specs.Schedules.{task_of, op_of, IsNew, Runs, places_of};

use crate::program::{Happened, Program};
use crate::schedule::run;
use ct_items::NoMemory;
use ct_node::MemNodes;
use std::alloc::Global;

/// Gives turns to these programs, numbered by their places, over a new index in memory: from no
/// pair on, each answers of the pairs as they stand at its turn.
pub fn run_in_memory(
    alloc: Global,
    key_len: u16,
    programs: &mut [Program],
    schedule: &[usize],
) -> Result<Vec<Happened>, NoMemory>
    requires some_key { 1 ≤ key_len }
    requires short_key { key_len ≤ 128 }
    requires places { All (λ place. place < length programs.old) schedule.now }
    requires numbers { map op_of programs.old ≡ range_with_len 0 (length programs.old) }
    requires new { All (IsNew key_len) programs.old }
    ensures runs { IfOk result (λ happened. (now : List Pair) × Runs (record { page = 0; index = 0 }) (map task_of programs.old) happened.items [] now) }
    ensures places { IfOk result (λ happened. places_of happened.items ≡ schedule.now) }
{
    let mut nodes = MemNodes::new(alloc, key_len)?;
    run(alloc, programs, schedule, &mut nodes)
}
