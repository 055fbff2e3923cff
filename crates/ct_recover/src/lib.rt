//! A store made, and a store opened again: its log is read from where its head says, up to the first gate
//! that is not open.
#![tactic(auto)]

mod create;
mod fault;
mod open;
mod replay;
#[cfg(test)]
mod tests;

pub use create::create_store;
pub use fault::OpenFault;
pub use open::open_store;
