//! The types of the stored format: file definitions, records, changes and transactions.
//! Its `specs/` define what a store's state is, what a change does to it, and what a history is.
#![tactic(auto)]

mod change;
mod definition;
mod store;

pub use change::{Change, Changes, Made, Transaction};
pub use definition::{
    FileDef, IndexDef, Indexes, Kind, LONGEST_IMAGE, LONGEST_KEY, LONGEST_NAME, MOST_INDEXES,
    MOST_SEGMENTS, Mode, Name, Seg, Segs,
};
pub use store::{
    BLOCK_ROOM, Bytes, File, MOST_FILES, RECORD_OVERHEAD, RECORDS_PER_BLOCK, Row, Rows,
};
