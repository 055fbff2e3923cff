//! Lists whose growth may be refused for want of memory, and that refusal.
//! Contracts see `Items<T>` as the list of its items.
#![tactic(auto)]

mod items;
mod no_memory;
#[cfg(test)]
mod tests;

pub use items::Items;
pub use no_memory::NoMemory;
