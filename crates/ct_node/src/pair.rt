//! A pair of an index: a key, and the number of the record that has it.

use ct_key::KeyBuf;
use std::marker::Model;

/// A key and a record's number. Pairs compare by key, byte by byte, and then by number.
#[derive(Debug, Drop)]
pub struct Pair {
    pub key: KeyBuf,
    pub num: u64,
}

impl Model for Pair {
    ghost use Rattle.ct_definitions.specs.Pairs.{Pair as IndexPair};

    ghost Value = { IndexPair };

    ghost view = { λ pair. record { key = pair.key; num = pair.num } };
}
