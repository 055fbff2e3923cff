//! Pages as bytes: the header that each page begins with, which headers are in the grammar, and the
//! numbers that stand in a page.
#![tactic(auto)]

mod fields;
mod header;
mod kind;
mod laws;
mod page;
#[cfg(test)]
mod tests;

pub use fields::{PAGE_SIZE, set_u16, set_u64, u16_at, u64_at};
pub use header::{HEADER_SIZE, Header, NO_FILE, NO_INDEX, set_position};
pub use kind::PageKind;
pub use laws::{fields_are_exact, headers_are_exact, positions_are_exact};
pub use page::{Page, PageView, are_zero, has_header};
