//! How far the writing of a chunk has come.

/// How far the chunk under way has come.
#[derive(Clone, Copy, Debug, PartialEq, Eq)]
pub enum Stage {
    /// No chunk is under way.
    Idle,
    /// Its body is written behind the closed gate.
    Written,
    /// Its body is stable.
    Stable,
    /// Its gate is written as open.
    Opened,
}

/// What a step of a flush has done.
#[derive(Clone, Copy, Debug, PartialEq, Eq)]
pub enum FlushAt {
    /// The chunk's body is written.
    Body,
    /// The body is stable.
    Sync,
    /// The gate is written as open.
    Gate,
    /// The gate is stable, and the flush has ended.
    Done,
}
