//! One session: a line read as a call, the call answered, the reply written.
//! `specs/` say what each line comes to and how each reply is spelled.
#![tactic(auto)]

mod reply;
mod run;
#[cfg(test)]
mod tests;

pub use reply::LONGEST_REPLY;
pub use run::{Asked, SessionRun, serve};
