//! Turns of several actors by a schedule, one after another, and the lines in which a schedule is given.
#![tactic(auto)]

mod order;
mod schedule;

pub use order::{Order, read_order};
pub use schedule::play;

#[cfg(test)]
mod tests;
