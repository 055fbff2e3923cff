//! Where bytes come from and where they go: `Source` and `Sink`, what each call promises, and both
//! in memory. Links, which are both at once, and the ports that give them are still to come.
#![tactic(auto)]

mod mem_sink;
mod mem_source;
mod plan;
mod sink;
mod source;
#[cfg(test)]
mod tests;

pub use mem_sink::MemSink;
pub use mem_source::MemSource;
pub use sink::{Sink, SinkError, put_all};
pub use source::{Source, SourceFault};
