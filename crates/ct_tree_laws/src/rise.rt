//! How the separator of a split is posted to the level above.

use ct_node::Pair;

/// What a split leaves to be posted to the level above: the page `child` begins at `low`, and was
/// split off the page `left`.
#[derive(Drop)]
pub struct Separator {
    pub low: Pair,
    pub child: u64,
    pub left: u64,
}

/// How far the posting of a separator has come.
#[derive(Drop)]
pub enum Rise {
    /// The root is to be read.
    Root,
    /// At this page, on the way to the child; and the node from which the way last went down.
    Down { page: u64, above: Option<u64> },
    /// At this node of the level above, without a latch on it.
    Above { page: u64 },
    /// The node is the operation's own. It is one half of a split where there is a separator to
    /// be posted next, one level up.
    Held { page: u64, next: Option<Separator> },
    /// The node, which is the operation's own, is to be split.
    Full { page: u64 },
    /// This other page is allocated, and to be the operation's own too.
    Fresh { page: u64, right: u64 },
    /// The upper half is to be written into the other page.
    Split { page: u64, right: u64 },
    /// The upper half is written, and the node to be cut.
    Cut { page: u64, right: u64 },
    /// The root was the left page: the definition page is to be the operation's own.
    Again,
    /// The definition page is the operation's own, and the root to be read again.
    Named,
    /// The root is the left page still: a page for a new root is to be allocated.
    Grow,
    /// The new root is to be written into this page.
    Crown { root: u64 },
    /// The new root is written, and to be named.
    Crowned { root: u64 },
}
