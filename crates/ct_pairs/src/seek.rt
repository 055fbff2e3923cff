//! `Seek`, what a search for a pair looks for.
//! What each finds is said in `specs/Finds.antt`.

use crate::pair::Pair;

/// What a search among the pairs of an index looks for.
#[derive(Clone, Copy, Debug)]
pub enum Seek<'a> {
    /// The least pair of all.
    First,
    /// The greatest pair of all.
    Last,
    /// The least pair above this one, which need not be there.
    Next(&'a Pair),
    /// The greatest pair below this one, which need not be there.
    Prev(&'a Pair),
    /// The least pair with the key.
    Equal(&'a [u8]),
    /// The least pair whose key is at the key or above it.
    AtOrAbove(&'a [u8]),
    /// The least pair whose key is above the key.
    Above(&'a [u8]),
    /// The greatest pair whose key is at the key or below it.
    AtOrBelow(&'a [u8]),
    /// The greatest pair whose key is below the key.
    Below(&'a [u8]),
    /// The least pair whose key begins with the bytes.
    FirstInSet(&'a [u8]),
    /// The least pair above this one whose key begins with the bytes.
    NextInSet(&'a Pair, &'a [u8]),
}
