//! The plain state of a store, and what changes do to it, exactly as the definitions say.
//! Each test of the definitions is one function here, which answers what the definition does.
#![tactic(auto)]

mod cache;
mod change;
mod index_pairs;
mod keys;
mod room;
mod rows;
mod state;
mod stored;
mod validity;

pub use change::{InverseFault, Refused, allows, apply, inverse};
pub use ct_definitions::{
    BLOCK_ROOM, Bytes, Change, Changes, File, FileDef, IndexDef, Indexes, Kind, LONGEST_IMAGE,
    LONGEST_KEY, LONGEST_NAME, MOST_FILES, MOST_INDEXES, MOST_SEGMENTS, Made, Mode, Name,
    RECORD_OVERHEAD, RECORDS_PER_BLOCK, Row, Rows, Seg, Segs, Transaction,
};
pub use ct_pairs::{Pair, Seek};
pub use room::{has_fitting_len, has_room};
pub use rows::{has_image, image_at, row_at};
pub use state::{
    Record, State, file_at, file_named, has_name, has_taken_key, index_named, lowest_free,
    may_stand,
};
pub use validity::{is_name, valid};

#[cfg(test)]
mod tests;
