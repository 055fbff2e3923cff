//! What a line of a session asks for.
//! Numbers and names are as the line has them: whether a definition is valid is judged above.

use ct_definitions::{Bytes, Mode, Name};
use ct_items::Items;

/// The segments of a new index, in the order of the line.
pub type NewSegs = Items<NewSeg>;
/// The indexes of a new file, in the order of the line.
pub type NewIndexes = Items<NewIndex>;

/// A segment of a new index: `len` bytes from byte `at` on.
#[derive(Clone, Copy, Debug, PartialEq, Eq)]
pub struct NewSeg {
    pub mode: Mode,
    pub at: u64,
    pub len: u64,
    /// Whether DSCSEG follows the segment.
    pub desc: bool,
}

/// An index of a new file.
#[derive(Clone, Debug, PartialEq, Eq, Drop)]
pub struct NewIndex {
    pub name: Name,
    pub unique: bool,
    /// The byte behind NULL.
    pub null: Option<u8>,
    pub segs: NewSegs,
}

/// How long the images of a new file are to be, in bytes.
#[derive(Clone, Copy, Debug, PartialEq, Eq)]
pub enum NewKind {
    Fixed { len: u64 },
    Variable { min: u64, max: u64 },
}

/// A file to be made.
#[derive(Clone, Debug, PartialEq, Eq, Drop)]
pub struct NewFile {
    pub name: Name,
    pub kind: NewKind,
    pub indexes: NewIndexes,
}

/// The lock that searches are to take.
#[derive(Clone, Copy, Debug, PartialEq, Eq)]
pub enum LockMode {
    Free,
    Enable,
    ReadRec,
}

/// A search without a target.
#[derive(Clone, Copy, Debug, PartialEq, Eq)]
pub enum Walk {
    First,
    Last,
    Next,
    Prev,
    NextSet,
}

/// A search for a target.
#[derive(Clone, Copy, Debug, PartialEq, Eq)]
pub enum Search {
    Get,
    Gte,
    Gt,
    Lte,
    Lt,
    FirstSet,
}

/// A call of a session.
#[derive(Clone, Debug, PartialEq, Eq, Drop)]
pub enum Call {
    Create(NewFile),
    Begin,
    Commit,
    Abort,
    Save,
    Restore {
        savepoint: u64,
    },
    Lock(LockMode),
    Add {
        file: Name,
        image: Bytes,
    },
    Rewrite {
        file: Name,
        image: Bytes,
    },
    Delete {
        file: Name,
    },
    Walk {
        walk: Walk,
        file: Name,
        index: Name,
    },
    Search {
        search: Search,
        file: Name,
        index: Name,
        target: Bytes,
    },
    Checkpoint,
    /// A dump, as the script asks for it.
    Dump {
        script: Bytes,
    },
    Front,
    Quit,
}
