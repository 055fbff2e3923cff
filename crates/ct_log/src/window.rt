//! A part of a log in memory.

ghost use Rattle.std.specs.Prelude.{◌≤◌, ◌+◌, ◌^◌, length};

use ct_items::Items;
use std::alloc::Global;

/// Bytes of a log that were read at once.
#[derive(Drop)]
pub struct Window {
    pub(crate) alloc: Global,
    pub bytes: Items<u8>,
    /// The place of the first byte.
    pub place: u64,
    /// Where the log ends.
    pub end: u64,
    ghost within: { place + length bytes ≤ end },
    ghost last: { end ≤ 2 ^ 62 },
}

/// Where an open chunk stands in a window.
#[derive(Clone, Copy, Debug, PartialEq, Eq)]
pub struct Part {
    /// Where its groups begin among the window's bytes.
    pub from: usize,
    /// The length of its groups.
    pub len: usize,
    /// The place of the chunk behind it.
    pub next: u64,
}
