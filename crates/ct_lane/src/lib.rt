//! Actors: who make turns on a shared value, one turn at a time, while others make theirs.
//! What an actor's type means is said in `specs/Actors.antt`.
#![tactic(auto)]

mod actor;

pub use actor::Actor;
