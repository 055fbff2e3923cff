//! The words of a line: parted by spaces, each byte by itself or as `\xx`; and the numbers among them.
//! How a line spells its words is said in `specs/Words.antt`.
#![tactic(auto)]

mod laws;
mod numbers;
mod spelling;
mod splitting;
mod word;

pub use laws::{spelled_word_is_read, spelling_stands_for_its_bytes};
pub use numbers::read_number;
pub use spelling::spell;
pub use splitting::{SplitFault, digit_at, split};
pub use word::{BACKSLASH, SPACE, Word, Words};

#[cfg(test)]
mod tests;
