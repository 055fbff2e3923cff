//! Lines of an input that comes in pieces: where they end, and which are too long.
//! A line ends with LF; one CR before it is dropped; an unfinished last line counts where it is not empty.
#![tactic(auto)]

mod held;
mod split;
#[cfg(test)]
mod tests;

pub use held::{Held, LONGEST_LINE};
pub use split::{first_line, lines_are_parted_by_feeds};
