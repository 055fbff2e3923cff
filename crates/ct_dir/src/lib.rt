//! The directory, definition pages and map pages: each call reads or changes one field of one page, and
//! leaves the rest of it as it was.
#![tactic(auto)]

mod definition;
mod directory;
mod grammar;
mod laws;
mod map;
#[cfg(test)]
mod tests;

pub use definition::{first_leaf, first_map, root, set_first_leaf, set_first_map, set_root};
pub use directory::{MOST_FILES, add_file, file_count, file_page, page_count, set_page_count};
pub use grammar::{is_definition_page, is_directory_page, is_map_page};
pub use laws::{
    definition_fields_are_apart, directory_fields_are_apart, map_entries_are_apart,
    positions_keep_fields, positions_keep_pages,
};
pub use map::{MOST_BLOCKS, MapEntry, block, entry_count, set_block};
