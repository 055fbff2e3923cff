//! Keys of images: how segments make a key of an image, and of a target that is sought.
//! What a key is is said in `ct_definitions`, what a target becomes in `specs/Target.antt`,
//! and how keys sort in `specs/Order.antt`.
#![tactic(auto)]

mod key_buf;
mod laws;
mod order;
mod parts;
mod target;
#[cfg(test)]
mod tests;

pub use ct_definitions::{LONGEST_KEY, Mode, Seg};
pub use key_buf::KeyBuf;
pub use laws::{
    int_parts_sort_as_numbers, keys_sort_by_segments, sgn_parts_sort_as_signed_numbers,
    targets_become_fronts, ureg_parts_agree_but_for_case,
};
pub use order::{compare_by_fronts, compare_bytes, front_number};
pub use parts::key_of;
pub use target::{key_len, target_key};
