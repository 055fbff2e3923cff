//! The shared state of a store: its plain state, its log, and what halted it.
//! A commit writes its transaction to the log before the state has it.
#![tactic(auto)]

mod entry;
mod flushing;
mod yard;

pub use yard::{CommitFault, Yard};
