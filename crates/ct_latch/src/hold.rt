//! What the table of latches lists, and how a latch is refused.

use thiserror::Error;

/// A latch that an operation has on a node: shared with others, or its own.
#[derive(Clone, Copy, Debug, PartialEq, Eq)]
pub struct Hold {
    pub node: u64,
    pub op: u64,
    pub own: bool,
}

/// Another operation holds the node in conflict.
#[derive(Clone, Copy, Debug, PartialEq, Eq, Error)]
#[error("operation {op} holds the node")]
pub struct Held {
    pub op: u64,
}
