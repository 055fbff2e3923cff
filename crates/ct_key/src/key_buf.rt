//! `KeyBuf`, the bytes of a key, which contracts see as a list.
//! Up to 128 bytes stand in the value itself.

ghost use Rattle.std.specs.Prelude.{◌≡◌, ◌+◌, ◌<◌, ◌≤◌, [], ◌∷◌, ◌++◌, length, IsOk, IfOk, OnOk, OnErr};

use crate::order::compare_bytes;
use ct_definitions::LONGEST_KEY;
use ct_items::NoMemory;
use smallvec::SmallVec;
use std::alloc::{AllocError, Global};
use std::cmp::Ordering;
use std::marker::Model;

/// The bytes of a key. As long as there are at most 128, it takes no memory.
#[derive(Debug, Drop)]
pub struct KeyBuf {
    bytes: SmallVec<u8, LONGEST_KEY>,
}

impl Model for KeyBuf {
    ghost use Rattle.std.specs.Prelude.{ℕ, ◌≤◌, List};
    ghost use Rattle.std.specs.Coded.{coded_ℕ, coded_list};
    ghost use Rattle.ct_definitions.specs.declared.definition.TheConstants.{LONGEST_KEY};

    ghost Value = { List ℕ };

    ghost coded = { coded_list coded_ℕ };

    ghost view = { λ key. key.bytes.items };

    ghost invariant = { λ key. LONGEST_KEY ≤ key.bytes.capacity };
}

impl KeyBuf {
    /// No bytes. It keeps the allocator for keys of more than 128 bytes.
    pub fn new(alloc: Global) -> KeyBuf
        ensures { result ≡ [] }
    {
        KeyBuf {
            bytes: SmallVec::new(alloc),
        }
    }

    /// A copy of bytes. Up to 128 of them take no memory.
    pub fn from_slice(alloc: Global, bytes: &[u8]) -> Result<KeyBuf, NoMemory>
        ensures ok { IfOk result (λ key. key ≡ bytes.now) }
        ensures room { length bytes.now ≤ LONGEST_KEY → IsOk result }
    {
        let bytes = SmallVec::from_slice(alloc, bytes)?;
        Ok(KeyBuf { bytes })
    }

    pub fn as_slice(&self) -> &[u8]
        ensures { result.now ≡ self.now }
    {
        self.bytes.as_slice()
    }

    /// Adds a byte at the end.
    pub fn push(&mut self, byte: u8) -> Result<(), NoMemory>
        ensures ok { OnOk result (self.new ≡ self.old ++ byte ∷ []) }

        // Up to 128 bytes there is always room.
        ensures room { length self.old < LONGEST_KEY → IsOk result }
        ensures err { OnErr result (self.new ≡ self.old) }
    {
        self.bytes.push(byte)?;
        Ok(())
    }

    /// Adds a byte to fewer than 128, for which there is room.
    pub(crate) fn push_within(&mut self, byte: u8)
        requires { length self.old < LONGEST_KEY }
        ensures { self.new ≡ self.old ++ byte ∷ [] }
    {
        self.bytes.push_reserved(byte);
    }

    /// Adds bytes, with which there are at most 128, so that there is room.
    pub(crate) fn extend_within(&mut self, bytes: &[u8])
        requires { length self.old + length bytes.now ≤ LONGEST_KEY }
        ensures { self.new ≡ self.old ++ bytes.now }
    {
        let _has_room = self.bytes.extend_from_slice(bytes);
    }

    /// Takes all bytes out.
    pub fn clear(&mut self)
        ensures { self.new ≡ [] }
    {
        self.bytes.clear();
    }
}

/// A copy of up to 128 bytes takes no memory.
impl Clone for KeyBuf {
    ghost use Rattle.std.specs.Prelude.{◌≡◌, ◌≤◌, length};
    ghost use Rattle.ct_definitions.specs.declared.definition.TheConstants.{LONGEST_KEY};

    ghost is_clone = { ◌≡◌ };

    ghost is_infallible = { λ key. length key ≤ LONGEST_KEY };

    fn clone(&self) -> Result<KeyBuf, AllocError> {
        let bytes = SmallVec::from_slice(*self.bytes.allocator(), self.bytes.as_slice())?;
        Ok(KeyBuf { bytes })
    }
}

impl PartialEq for KeyBuf {
    ghost use Rattle.std.specs.Prelude.{nat_eq};
    ghost use Rattle.std.specs.Cmp.{nat_eq_equiv, partial_equiv_from_equiv};
    ghost use Rattle.std.specs.Cmp.Lexicographic.{pointwise, lists_per};

    ghost eq = { pointwise nat_eq };

    ghost laws = { lists_per (partial_equiv_from_equiv nat_eq_equiv) };

    fn eq(&self, other: &KeyBuf) -> bool {
        self.as_slice() == other.as_slice()
    }
}

impl Eq for KeyBuf {
    ghost use Rattle.std.specs.Cmp.{nat_eq_equiv};
    ghost use Rattle.std.specs.Cmp.Lexicographic.{lists_equiv};

    ghost laws = { lists_equiv nat_eq_equiv };
}

impl PartialOrd for KeyBuf {
    ghost use Rattle.std.specs.Prelude.{Some};
    ghost use Rattle.std.specs.Ordering.{nat_cmp};
    ghost use Rattle.std.specs.Cmp.{unsigned_po};
    ghost use Rattle.std.specs.Cmp.Lexicographic.{slice_partial_cmp, lists_po};

    ghost partial_cmp = { slice_partial_cmp (λ a b. Some (nat_cmp a b)) };

    ghost laws = { lists_po unsigned_po };

    fn partial_cmp(&self, other: &KeyBuf) -> Option<Ordering> {
        self.as_slice().partial_cmp(&other.as_slice())
    }
}

/// Keys are compared byte by byte.
impl Ord for KeyBuf {
    ghost use Rattle.std.specs.Prelude.{refl};
    ghost use Rattle.std.specs.Ordering.{nat_cmp};
    ghost use Rattle.std.specs.Cmp.{nat_cmp_total, unsigned_ties};
    ghost use Rattle.std.specs.Cmp.Lexicographic.{slice_cmp, lists_total, lists_agrees, lists_ties};

    ghost cmp = { slice_cmp nat_cmp };

    ghost total = { lists_total nat_cmp_total };

    ghost matches_partial_cmp = { lists_agrees (λ _ _. refl) };

    ghost matches_eq = { lists_ties nat_cmp unsigned_ties };

    fn cmp(&self, other: &KeyBuf) -> Ordering {
        compare_bytes(self.as_slice(), other.as_slice())
    }
}
