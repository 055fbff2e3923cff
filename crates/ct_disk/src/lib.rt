//! The disk as the layers above see it: the trait `Disk` with what a crash may leave, the answers
//! of its calls, and how a call that takes several turns answers.
#![tactic(auto)]

mod bytes;
mod crash;
mod disk;
mod draws;
mod fault;
mod history;
mod laws;
mod medium;
mod mem_disk;
mod plans;
mod replay;
mod turn;
mod write;

pub use ct_items::NoMemory;
pub use disk::Disk;
pub use fault::{DiskError, DiskFault};
pub use laws::keeps_what_was_left;
pub use mem_disk::MemDisk;
pub use plans::Plan;
pub use turn::{HaltCause, StepFault, Turn};
pub use write::write_through;

#[cfg(test)]
mod tests;
