//! Laws of the definitions of states, changes, histories and pairs.
//! Each is the contract of a function with no parameters and an empty body.
//! Proofs of other crates cite the lemmas behind them, in `proofs/`.
#![tactic(auto)]

mod allowed_laws;
mod examples;
mod frame_laws;
mod history_laws;
mod order_laws;
mod pair_laws;
mod room_laws;
mod undo_laws;

pub use allowed_laws::{
    adds_are_allowed, deletes_are_allowed, keys_stand_once, makes_are_allowed, rewrites_are_allowed,
};
pub use examples::{
    images_by_example, keys_by_example, names_by_example, order_by_example, room_by_example,
    validity_by_example,
};
pub use frame_laws::{
    files_after_change, records_after_add, records_after_delete, records_after_rewrite,
};
pub use history_laws::{
    histories_begin, histories_go_on, histories_grow, histories_in_parts, histories_stop,
    histories_up_to,
};
pub use order_laws::{changes_keep_order, histories_keep_order};
pub use pair_laws::{pairs_after_changes, pairs_are_of_records, pairs_are_sorted};
pub use room_laws::use_after_changes;
pub use undo_laws::{changes_are_undone, inverses_undo, new_ones_are_undone, what_is_taken_back};
