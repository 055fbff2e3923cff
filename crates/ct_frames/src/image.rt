//! The image of a page, as a group of the log has it.

use ct_page::PAGE_SIZE;

/// The bytes that a page got at a position of the log.
#[derive(Clone, Copy)]
pub struct Image<'a> {
    pub page: u64,
    pub bytes: &'a [u8; PAGE_SIZE],
    /// The ordinal of the group. The page has it in its header, whatever stands there in the bytes.
    pub position: u64,
}
