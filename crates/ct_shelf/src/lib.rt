//! The shelf on which dumps are kept: devices by name, each at home or lent.
//! What a shelf has and what its calls do to that is said in `specs/Shelf.antt`.
#![tactic(auto)]

mod mem_shelf;
mod shelf;

pub use mem_shelf::MemShelf;
pub use shelf::{Shelf, ShelfRefusal};

#[cfg(test)]
mod tests;
