//! What a log knows in memory of how far it is written, and the groups that wait.

ghost use Rattle.std.specs.Prelude.{◌≡◌, ◌<◌, ◌≤◌, ◌+◌, ◌^◌, []};
ghost use Rattle.ct_log.specs.Chunks.{chunk_size, with_gate, IsShort};
ghost use Rattle.ct_log.specs.declared.stage.Stage.TheVariants.{Idle};

use crate::groups::Groups;
use crate::stage::Stage;
use std::alloc::Global;

/// How far a log is written. Places are in bytes from the device's start; groups have the ordinals
/// 1, 2, .. over the whole log.
#[derive(Drop)]
pub struct Flow {
    pub(crate) alloc: Global,
    /// The place of the closed gate that ends the log.
    pub end: u64,
    /// How far the chunk under way has come.
    pub stage: Stage,
    /// The groups of the chunk under way.
    pub taken: Groups,
    /// The groups that are in no chunk yet.
    pub waiting: Groups,
    /// The ordinal of the last group that a crash leaves, or one less than the first.
    pub durable: u64,
    /// The ordinal of the last group that is in the log or in the chunk under way.
    pub taken_up_to: u64,
    /// The ordinal of the next group.
    pub next: u64,
    ghost taken_short: { IsShort taken },
    ghost waiting_short: { IsShort waiting },
    ghost fits: { end + with_gate (chunk_size taken + chunk_size waiting) ≤ 2 ^ 62 },
    ghost in_order: { durable ≤ taken_up_to },
    ghost before_next: { taken_up_to < next },
    ghost last: { next ≤ 2 ^ 63 },
    ghost none_under_way: { stage ≡ Idle → durable ≡ taken_up_to },
    ghost under_way: { taken ≡ [] → stage ≡ Idle },
    ghost none_waits: { waiting ≡ [] → taken_up_to + 1 ≡ next },
}
