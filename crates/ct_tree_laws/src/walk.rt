//! What an operation on a tree remembers between its turns.

use crate::left::Way;
use crate::rise::{Rise, Separator};
use ct_node::{Pair, Root, Target};

/// An operation: its number, the index and what it looks for.
#[derive(Drop)]
pub struct Walk {
    pub op: u64,
    pub at: Root,
    pub target: Target,
}

/// How far an operation has come.
#[derive(Drop)]
pub enum Stage {
    /// The root is to be read.
    Start,
    /// At this page, on the way right and down.
    Down { page: u64 },
    /// At this leaf, without a latch on it.
    Leaf { page: u64 },
    /// The leaf is the operation's own.
    Held { page: u64 },
    /// The leaf, which is the operation's own, is to be split.
    Full { page: u64 },
    /// The upper half is to be written into this other page.
    Split { page: u64, right: u64 },
    /// The upper half is written, and the leaf to be cut.
    Cut { page: u64, right: u64 },
    /// All leaves up to this one are passed, by a search for pairs above the target, or also at it;
    /// this one has no latch yet.
    Share { page: u64, above: bool },
    /// The search has this leaf too.
    Shared { page: u64, above: bool },
    /// The search to the left has the leaf of its target.
    SharedLeft { page: u64 },
    /// All leaves from `low` on are passed, by a search for pairs below the target, or also at it;
    /// it is on its way to the leaf that ends at `low`.
    Left { low: Pair, or_at: bool, way: Way },
    /// The separator of a split is to be posted.
    Post { separator: Separator, rise: Rise },
    /// The operation has ended.
    Ended,
}
