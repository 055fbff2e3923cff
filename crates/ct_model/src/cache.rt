//! `Cache`, what a state keeps beside a file so that its records are not searched anew.
//! What it says of the file stands in `specs/Stored.antt`.

use ct_pairs::Pairs;

/// What is kept beside a file.
#[derive(Drop)]
pub(crate) struct Cache {
    /// A block such that in none below it a number is free for an image of the file's least length.
    pub(crate) full_below: u64,
    /// The pairs of each index of the file.
    pub(crate) pairs: Vec<Pairs>,
}
