//! Record pages: the records of one block, by number within the block, in the bytes of one page.
//! Contracts see `Slots` as what the page shows: its file, its position and its records.
#![tactic(auto)]

mod check;
mod edit;
mod find;
mod laws;
mod moves;
mod slots;
#[cfg(test)]
mod tests;

pub use laws::positions_keep_records;
pub use slots::Slots;
