//! What a file is: its name, the lengths of its images, and its indexes.
//! Which definitions are valid is said in `specs/Validity.antt`.

use ct_items::Items;

/// The longest name, in bytes.
pub const LONGEST_NAME: usize = 32;
/// The longest image of a record, in bytes.
pub const LONGEST_IMAGE: u32 = 3840;
/// The longest key, in bytes.
pub const LONGEST_KEY: usize = 128;
/// How many indexes a file has at most.
pub const MOST_INDEXES: usize = 8;
/// How many segments an index has at most.
pub const MOST_SEGMENTS: usize = 8;

/// A name's bytes: 1 to 32 letters, digits, `_`, `.` and `-`.
pub type Name = Items<u8>;
/// The segments of an index, in the order of the key.
pub type Segs = Items<Seg>;
/// The indexes of a file, in the order of its definition.
pub type Indexes = Items<IndexDef>;

/// How a segment's bytes become part of a key.
#[derive(Clone, Copy, Debug, PartialEq, Eq)]
pub enum Mode {
    /// The bytes as they are.
    Reg,
    /// The bytes with `a` to `z` made upper case.
    Ureg,
    /// A number with its low byte first, of 1, 2, 4 or 8 bytes; keys sort as numbers do.
    Int,
    /// The same, a signed number in two's complement.
    Sgn,
}

/// A segment of a key: `len` bytes of the image from byte `at` on.
#[derive(Clone, Copy, Debug, PartialEq, Eq)]
pub struct Seg {
    pub at: u16,
    pub len: u16,
    pub mode: Mode,
    /// Whether greater values sort first: each byte of the key is complemented.
    pub desc: bool,
}

/// How long the images of a file are, in bytes.
#[derive(Clone, Copy, Debug, PartialEq, Eq)]
pub enum Kind {
    Fixed(u32),
    Variable { min: u32, max: u32 },
}

/// An index of a file.
#[derive(Clone, Debug, PartialEq, Eq, Drop)]
pub struct IndexDef {
    pub name: Name,
    /// Whether no two records have the same key.
    pub unique: bool,
    /// Records whose segments have this byte alone have no key.
    pub null: Option<u8>,
    pub segs: Segs,
}

/// The definition of a file.
#[derive(Clone, Debug, PartialEq, Eq, Drop)]
pub struct FileDef {
    pub name: Name,
    pub kind: Kind,
    pub indexes: Indexes,
}
