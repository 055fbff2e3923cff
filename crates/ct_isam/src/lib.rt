//! The calls of an ISAM session on a store: files made, records added, and every search.
//! What each call answers and leaves is said in `specs/Calls.antt` and `specs/Searches.antt`.
#![tactic(auto)]

mod adding;
mod answering;
mod creating;
mod finding;
mod places;
mod reply;
mod searching;
mod session;
#[cfg(test)]
mod tests;

pub use answering::answer;
pub use reply::Reply;
pub use session::{KeySet, Seat, Session};
