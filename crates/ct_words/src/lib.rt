//! The words of the command line: which command they ask for, if they ask for one.
//! The table of the commands is `specs/Commands.antt`.
#![tactic(auto)]

mod commands;
mod words;

pub use commands::{Command, command_of};

#[cfg(test)]
mod tests;
