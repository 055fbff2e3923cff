//! Scripts of dumps: the name that a dump gets, and the files that it is asked for.
//! `specs/Scripts.antt` says which texts are scripts, and which line of another is the first bad one.
#![tactic(auto)]

mod part;
mod script;
mod seen;

pub use script::{Names, Numbers, Script, ScriptFault, read_script};

#[cfg(test)]
mod tests;
