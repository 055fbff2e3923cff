//! The log device: groups in chunks, each behind a gate that is opened last, so that a crash leaves
//! a chunk whole or not at all.
#![tactic(auto)]

mod find;
mod flow;
mod flush;
mod groups;
mod head;
mod head_laws;
mod laws;
mod log;
mod make;
mod moves;
mod pages;
mod places;
mod read;
mod stage;
mod window;

pub use flow::Flow;
pub use groups::Groups;
pub use head::{Head, Start, has_open_header, read_head};
pub use head_laws::{chunks_are_found, made_logs_are_read};
pub use laws::{chunks_are_determined, log_holds_chunks, text_stands_for_chunks};
pub use log::Log;
pub use make::{is_id, make_log, open_gate, pad, write_behind};
pub use read::LogFault;
pub use stage::{FlushAt, Stage};
pub use window::{Part, Window};

#[cfg(test)]
mod tests;
