//! What a walk through a tree looks for, and where it goes on from a node.

use crate::pair::Pair;

/// What a walk looks for.
#[derive(Debug, Drop)]
pub enum Target {
    /// Below every pair.
    First,
    /// Above every pair.
    Last,
    /// At this pair, whether or not it is there.
    At(Pair),
    /// The node that ends at this pair.
    Before(Pair),
}

/// Where a walk goes on from a node.
#[derive(Clone, Copy, Debug, PartialEq, Eq)]
pub enum Place {
    /// At the page to the right.
    Right(u64),
    /// At this page of the level below.
    Down(u64),
    /// In this leaf, at the pair of this place.
    Here(usize),
    /// In this leaf, behind its last pair. Also in an inner node without a pair.
    End,
}
