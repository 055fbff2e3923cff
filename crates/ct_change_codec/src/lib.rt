//! Changes and the definitions of files as bytes, in the one spelling that the log and the pages have.
//! What is read is spelled so, and what fits its fields is read again.
#![tactic(auto)]

mod laws;
mod read_changes;
mod read_definitions;
mod write_changes;
mod write_definitions;

pub use laws::formats_are_exact;
pub use read_changes::{change_at, read_change, read_definition};
pub use read_definitions::definition_at;
pub use write_changes::{push_change, write_change, write_definition};
pub use write_definitions::push_definition;

#[cfg(test)]
mod tests;
