//! The lines of a session: which call a line asks for, or the place where it leaves the grammar.
//! What may stand after what is said in `specs/Grammar.antt`.
#![tactic(auto)]

mod call;
mod commands;
mod creating;
mod laws;
mod line;
mod reading;

pub use call::{
    Call, LockMode, NewFile, NewIndex, NewIndexes, NewKind, NewSeg, NewSegs, Search, Walk,
};
pub use laws::{call_has_spelling, read_call_is_spelled, spelled_call_is_read};
pub use line::{LONGEST_LINE, LineFault, read_line};

#[cfg(test)]
mod tests;
