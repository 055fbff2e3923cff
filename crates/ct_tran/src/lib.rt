//! A session's transaction while it is open: its own changes, its savepoints, and what the session sees
//! of the pairs of an index beside its own changes. No call knows a store.
#![tactic(auto)]

mod lengths;
mod overlay;
mod overlay_laws;
mod own;

pub use lengths::encoded_len;
pub use overlay::Overlay;
pub use overlay_laws::{overlays_follow_changes, searches_are_merged};
pub use own::{Own, OwnFault};

#[cfg(test)]
mod tests;
