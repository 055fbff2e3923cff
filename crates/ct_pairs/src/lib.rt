//! The pairs of an index, each a key and the number of the record that has it, in order: putting
//! one in, taking one out, and every search for one, by descents of a tree and halvings of a queue.
//! What a search finds is said in `specs/Finds.antt`.
#![tactic(auto)]

mod laws;
mod ordered;
mod pair;
mod pairs;
mod seek;

pub use laws::{
    found_pairs_have_records, keys_are_those_of_pairs, pairs_are_in_order, pairs_have_records,
    pairs_of_another_image, pairs_of_one_less, pairs_of_one_more,
};
pub use pair::Pair;
pub use pairs::Pairs;
pub use seek::Seek;

#[cfg(test)]
mod tests;
