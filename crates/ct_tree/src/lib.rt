//! The tree with right links: puts and takes of one pair and searches, in turns beside others.
#![tactic(auto)]

mod begin;
mod crown;
mod descent;
#[cfg(test)]
mod fault_tests;
mod laws;
mod left;
mod memory;
mod moves;
mod post;
mod program;
mod put;
#[cfg(test)]
mod random_tests;
mod roles;
mod schedule;
mod search;
mod seek;
#[cfg(test)]
mod single_tests;
mod split;
mod split_above;
#[cfg(test)]
mod stop_tests;
mod take;
#[cfg(test)]
mod test_tree;
#[cfg(test)]
mod tests;

pub use begin::begins_in_memory;
pub use ct_tree_laws::{Rise, Separator, Stage, Walk, Way};
pub use laws::{a_stop_leaves_trees, half_split_is_not_reached, levels_are_even, moves_keep_trees};
pub use memory::run_in_memory;
pub use moves::{Spot, turns_come_to_an_end, walks_go_in_no_circle};
pub use program::{Answer, Happened, Program, turn};
pub use put::Put;
pub use roles::{Ways, pages_are_in_their_roles};
pub use schedule::run;
pub use search::Search;
pub use seek::Seek;
pub use take::Take;
