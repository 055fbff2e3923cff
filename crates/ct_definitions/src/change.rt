//! What a transaction does: a list of changes under one number.
//! What a change does to a state is said in `specs/Changes.antt`.

use crate::definition::FileDef;
use crate::store::Bytes;
use ct_items::Items;

/// One change of a store's state. Files are numbered from 0 in the order of their making.
#[derive(Clone, Debug, PartialEq, Eq, Drop)]
pub enum Change {
    /// A new file, which gets the next number.
    Make {
        file: u16,
        def: FileDef,
    },
    /// A new record.
    Add {
        file: u16,
        num: u64,
        new: Bytes,
    },
    /// Another image for a record.
    Rewrite {
        file: u16,
        num: u64,
        old: Bytes,
        new: Bytes,
    },
    /// A record taken away.
    Delete {
        file: u16,
        num: u64,
        old: Bytes,
    },
}

/// Changes in the order in which they were made.
pub type Changes = Items<Change>;

/// How a transaction came into the log.
#[derive(Clone, Copy, Debug, PartialEq, Eq)]
pub enum Made {
    /// By the session whose number it has.
    BySession,
    /// By rolling forward from another log.
    ByRollForward,
}

/// Changes that count together or not at all.
#[derive(Clone, Debug, PartialEq, Eq, Drop)]
pub struct Transaction {
    /// One more than the number of the transaction before.
    pub number: u64,
    pub session: u16,
    pub made: Made,
    pub changes: Changes,
}
