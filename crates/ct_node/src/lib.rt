//! Nodes of an index: a page of pairs in order, and the edits of one.
//! A node stands in the value itself and takes no memory. Its entries are kept as the bytes of the
//! page, in cells of one width, so a pair is found by halves and an edit moves bytes once.
#![tactic(auto)]

mod bounds;
mod cells;
mod check;
mod edge;
mod laws;
mod mem_nodes;
mod node;
mod nodes;
#[cfg(test)]
mod page_tests;
mod pair;
mod reach;
mod root;
mod target;
#[cfg(test)]
mod tests;

pub use laws::{node_pages_are_exact, positions_keep_nodes};
pub use mem_nodes::MemNodes;
pub use node::Node;
pub use nodes::Nodes;
pub use pair::Pair;
pub use reach::Reach;
pub use root::{IndexRow, Mark, Owner, Root};
pub use target::{Place, Target};
