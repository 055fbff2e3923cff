//! What a disk in memory has gone through, kept so that what a crash may leave follows from it.

ghost use Rattle.std.specs.Prelude.{◌+◌, ◌<◌, ◌^◌, length};

use ct_items::Items;

/// Bytes that were put at `at`, of a write that asked for `missing` more.
#[derive(Drop)]
pub(crate) struct Put {
    pub(crate) at: usize,
    pub(crate) bytes: Items<u8>,
    pub(crate) missing: usize,
    ghost in_range: { at + (length bytes + missing) < 2 ^ 64 },
}

/// A change that a disk has gone through.
#[derive(Drop)]
pub(crate) enum Change {
    Write(Put),
    /// The disk was given this length.
    Cut(usize),
}

/// A change, and whether everything before it had been synced.
#[derive(Drop)]
pub(crate) struct Entry {
    pub(crate) after_sync: bool,
    pub(crate) change: Change,
}
