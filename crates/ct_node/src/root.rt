//! Where the root of an index is named, and which step of a transaction an edit is.

/// A definition page, and an index in it.
#[derive(Clone, Copy, Debug, PartialEq, Eq)]
pub struct Root {
    pub page: u64,
    pub index: u16,
}

/// A step of a transaction: its number, and how many steps it has made with this one.
#[derive(Clone, Copy, Debug, PartialEq, Eq)]
pub struct Mark {
    pub tran: u64,
    pub steps: u32,
}

impl Mark {
    /// No step of any transaction.
    pub const NONE: Mark = Mark { tran: 0, steps: 0 };
}

/// What a definition page tells of an index: the page of its root, that of its first leaf, and how
/// many bytes its keys have.
#[derive(Clone, Copy, Debug, PartialEq, Eq)]
pub struct IndexRow {
    pub root: u64,
    pub first: u64,
    pub key_len: u16,
}

/// A page that an operation allocated and that no link reaches yet.
#[derive(Clone, Copy, Debug, PartialEq, Eq)]
pub struct Owner {
    pub page: u64,
    pub op: u64,
}
