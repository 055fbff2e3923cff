//! A word of a line, and the bytes that have a meaning of their own there.
//! Which bytes stand for themselves is said in `specs/Words.antt`.

use ct_definitions::Bytes;
use ct_items::Items;

/// Parts words.
pub const SPACE: u8 = b' ';
/// Begins an escape: two hexadecimal digits follow it.
pub const BACKSLASH: u8 = b'\\';

/// A word of a line.
#[derive(Clone, Debug, PartialEq, Eq, Drop)]
pub struct Word {
    /// What the word stands for, its escapes read. A word has one byte at least.
    pub bytes: Bytes,
    /// The place of its first byte in the line, from 0.
    pub at: usize,
}

/// The words of a line, from left to right.
pub type Words = Items<Word>;
