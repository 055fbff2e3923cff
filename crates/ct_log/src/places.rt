//! Where the parts of a log stand, and the bounds of its places and numbers.

/// "CTLOGONE" and version 1, with which the header begins.
pub(crate) const SIGNATURE: [u8; 12] = [67, 84, 76, 79, 71, 79, 78, 69, 1, 0, 0, 0];

/// Where the id stands in the header.
pub(crate) const ID: usize = 12;

/// Where the base number stands in the header.
pub(crate) const BASE: usize = 28;

/// Where the header's gate stands.
pub(crate) const HEADER_GATE: u64 = 36;

/// Where the zeros of the header begin, behind its gate.
pub(crate) const HEADER_END: usize = 37;

/// Where the gate of a start cell stands in its page.
pub(crate) const CELL_GATE: usize = 32;

/// How long the header and each start cell are.
pub(crate) const PAGE: usize = 4096;

/// Where the start cells stand.
pub(crate) const FIRST_CELL: u64 = 4096;

pub(crate) const SECOND_CELL: u64 = 8192;

/// Where the first chunk stands, behind the header and the two start cells.
pub(crate) const FIRST_CHUNK: u64 = 12288;

/// An open gate: of the header, of a start cell or of a chunk.
pub(crate) const OPEN: u8 = 1;

/// A chunk's gate and the four bytes of its length, or these four and the gate behind its groups.
pub(crate) const FRAME: u64 = 5;

/// The groups of one chunk are shorter.
pub(crate) const CHUNK_LIMIT: u64 = 1 << 32;

/// Where a log ends at most, however long its device is.
pub(crate) const LAST_END: u64 = 1 << 62;

/// The greatest number of a transaction, of a group and of a start cell.
pub(crate) const LAST_NUMBER: u64 = 1 << 63;
