//! The real outside as the layers below see it: files as disks, a folder as a shelf, a reader as a source, a writer as a
//! sink. What a file holds, and what a stream gives or takes, no contract says; that is trusted.
#![tactic(auto)]

mod counts;
mod file_disk;
mod folder_shelf;
mod limits;
mod read_source;
#[cfg(test)]
mod shelf_tests;
mod standard;
mod store_files;
#[cfg(test)]
mod tests;
mod write_sink;

pub use file_disk::FileDisk;
pub use folder_shelf::FolderShelf;
pub use read_source::ReadSource;
pub use standard::hold_standard;
pub use store_files::{OpenError, StoreFiles, make_folder, open_store};
pub use write_sink::WriteSink;
