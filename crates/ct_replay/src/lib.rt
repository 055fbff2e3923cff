//! Replaying groups of a log: the images among them are placed over frames, in their order.
//! `specs/Images.antt` says what a page is after groups.
#![tactic(auto)]

mod replay;
#[cfg(test)]
mod tests;

pub use replay::replay_groups;
