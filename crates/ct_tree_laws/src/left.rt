//! How far a search to the left has come on its way to a leaf.

/// The way to the leaf that ends where the leaves of a search begin.
#[derive(Clone, Copy, Debug, PartialEq, Eq)]
pub enum Way {
    /// The root is to be read.
    Start,
    /// At this page, on the way right and down.
    Down { page: u64 },
    /// At this leaf, which has no latch yet.
    Leaf { page: u64 },
    /// The search has this leaf too.
    Shared { page: u64 },
}
