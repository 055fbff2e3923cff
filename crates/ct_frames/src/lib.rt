//! The pages in memory: each page that was read or placed has a frame with its bytes, which look-ups
//! lend without a copy, and which knows from which position on its images are not on the device yet.
#![tactic(auto)]

mod fault;
mod frame;
mod frames;
mod image;
mod laws;
mod read;
mod table;
#[cfg(test)]
mod tests;

pub use fault::{Fetched, FrameFault};
pub use frame::Frame;
pub use frames::Frames;
pub use image::Image;
pub use laws::pages_go_on;
pub use table::FrameTable;
