//! What a tree with right links is, what operations on it remember between their turns, and the
//! laws of its edits.
#![tactic(auto)]

mod left;
mod rise;
mod walk;

pub use left::Way;
pub use rise::{Rise, Separator};
pub use walk::{Stage, Walk};
