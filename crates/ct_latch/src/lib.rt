//! Latches by node and operation: shared ones, and ones that an operation has for itself.
//! An operation is refused exactly where another holds the node in conflict, and is told which.
#![tactic(auto)]

mod hold;
mod latches;
#[cfg(test)]
mod tests;

pub use ct_items::NoMemory;
pub use hold::{Held, Hold};
pub use latches::Latches;
