//! How a call that takes several turns answers each of them, and why a turn is refused.

use thiserror::Error;

/// Why a store has halted. It keeps the first cause.
#[derive(Clone, Copy, Debug, PartialEq, Eq, Error)]
pub enum HaltCause {
    /// A device failed in a write, a cut or a sync.
    #[error("a write failed")]
    Write,
    /// A device failed in a read that had to succeed.
    #[error("a read failed")]
    Read,
    /// A change was under way and could not have the memory that it asked for.
    #[error("out of memory")]
    Memory,
    /// The page with this number is outside its role.
    #[error("page {0} is damaged")]
    BadPage(u64),
    /// The log is outside its grammar at this place, in bytes from its start.
    #[error("the log is damaged at {0}")]
    BadLog(u64),
    /// A number would rise past its last value.
    #[error("a limit was reached")]
    Limit,
}

/// Why a turn was refused.
#[derive(Clone, Copy, Debug, PartialEq, Eq, Error)]
pub enum StepFault {
    /// A device failed in a read. The call may be made again.
    #[error("a read failed")]
    Read,
    /// The store has halted.
    #[error("halted: {0}")]
    Halted(HaltCause),
    /// The turn could not have the memory that it asked for.
    #[error("out of memory")]
    Memory,
}

/// What one turn of a call gives.
#[derive(Clone, Copy, Debug, PartialEq, Eq)]
pub enum Turn<T> {
    /// The call has ended with this answer.
    Done(T),
    /// The call goes on: one step was made.
    More,
    /// Another operation, which has not ended, holds what the call needs.
    Busy { op: u64 },
    /// The turn was refused.
    Refused(StepFault),
}
