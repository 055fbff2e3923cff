//! What a store holds: files, each with its definition and its records by rising number.
//! Which records may stand together is said in `specs/Room.antt` and `specs/Changes.antt`.

use crate::definition::FileDef;
use ct_items::Items;

/// How many files a store has at most.
pub const MOST_FILES: usize = 256;
/// How many record numbers one block covers: number r belongs to block r / 128.
pub const RECORDS_PER_BLOCK: u64 = 128;
/// How many bytes the records of one block may use.
pub const BLOCK_ROOM: u64 = 3968;
/// How many bytes a record uses beside its image.
pub const RECORD_OVERHEAD: u64 = 8;

/// Bytes that contracts see as a list: an image, or a part of one.
pub type Bytes = Items<u8>;
/// Records by rising number.
pub type Rows = Items<Row>;

/// A record: its number, from 1, and its image.
#[derive(Clone, Debug, PartialEq, Eq, Drop)]
pub struct Row {
    pub num: u64,
    pub image: Bytes,
}

/// A file of a store.
#[derive(Clone, Debug, PartialEq, Eq, Drop)]
pub struct File {
    pub def: FileDef,
    pub records: Rows,
}
