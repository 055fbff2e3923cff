//! The tool: its commands over two devices, an input and an output.
//! `run_tool` carries the promise of the whole.
#![tactic(auto)]

mod check;
mod create;
mod ended;
mod exec;
mod input;
mod laws;
mod run;
mod session;
mod talk;
#[cfg(test)]
mod tests;

pub use ended::{Cause, Ended};
pub use laws::runs_keep;
pub use run::run_tool;
