//! `Pair`, a key and the number of the record that has it.
//! Pairs are compared by key, byte by byte, and then by number.

ghost use Rattle.std.specs.Prelude.{◌≡◌, ◌≤◌, length, IsOk, IfOk};
ghost use Rattle.ct_pairs.specs.Finds.{is_pair};

use ct_items::NoMemory;
use ct_key::{compare_by_fronts, compare_bytes, front_number};
use smallvec::SmallVec;
use std::alloc::Global;
use std::cmp::Ordering;
use std::marker::Model;

/// How many bytes of a key stand in the pair itself.
const INLINE: usize = 16;

/// A key, and the number of the record that has it. A key of at most 16 bytes takes no memory.
#[derive(Debug, Drop)]
pub struct Pair {
    /// The number that the key's first eight bytes give, which decides most comparisons.
    front: u64,
    key: SmallVec<u8, INLINE>,
    num: u64,
}

impl Model for Pair {
    ghost use Rattle.std.specs.Prelude.{◌≡◌};
    ghost use Rattle.ct_definitions.specs.Pairs.{Pair as Seen};
    ghost use Rattle.ct_key.specs.Order.{front_number};

    ghost Value = { Seen };

    ghost view = { λ pair. record { key = pair.key.items; num = pair.num } };

    ghost invariant = { λ pair. pair.front ≡ front_number pair.key.items };
}

impl Pair {
    /// The pair of a key and a record number. Up to 16 bytes of a key take no memory.
    pub fn new(alloc: Global, key: &[u8], num: u64) -> Result<Pair, NoMemory>
        ensures ok { IfOk result (λ pair. pair ≡ record { key = key.now; num = num }) }
        ensures room { length key.now ≤ INLINE → IsOk result }
    {
        let front = front_number(key);
        let key = SmallVec::from_slice(alloc, key)?;
        Ok(Pair { front, key, num })
    }

    /// The bytes of the key.
    pub fn key(&self) -> &[u8]
        ensures { result.now ≡ self.now.key }
    {
        self.key.as_slice()
    }

    /// Whether the pair has the key and the number.
    pub(crate) fn is_of(&self, key: &[u8], num: u64) -> bool
        ensures { result ≡ is_pair (record { key = key.now; num = num }) self.now }
    {
        compare_bytes(key, self.key())
            .then(num.cmp(&self.num))
            .is_eq()
    }

    /// The number of the record.
    pub fn num(&self) -> u64
        ensures { result ≡ self.now.num }
    {
        self.num
    }
}

impl PartialEq for Pair {
    ghost use Rattle.std.specs.Cmp.{partial_equiv_from_equiv};
    ghost use Rattle.std.specs.Ordering.{eq_by_cmp};
    ghost use Rattle.ct_definitions.specs.Pairs.{pair_cmp};
    ghost use Rattle.ct_pairs.specs.Order.{same_pair_equiv};

    ghost eq = { eq_by_cmp pair_cmp };

    ghost laws = { partial_equiv_from_equiv same_pair_equiv };

    fn eq(&self, other: &Pair) -> bool {
        self.cmp(other).is_eq()
    }
}

impl Eq for Pair {
    ghost use Rattle.ct_pairs.specs.Order.{same_pair_equiv};

    ghost laws = { same_pair_equiv };
}

impl PartialOrd for Pair {
    ghost use Rattle.std.specs.Prelude.{Some, refl};
    ghost use Rattle.std.specs.Cmp.{partial_order_from_agreeing_total};
    ghost use Rattle.ct_definitions.specs.Pairs.{pair_cmp};
    ghost use Rattle.ct_pairs.specs.Order.{pair_cmp_total};

    ghost partial_cmp = { λ a b. Some (pair_cmp a b) };

    ghost laws = { partial_order_from_agreeing_total pair_cmp pair_cmp_total (λ _ _. refl) (λ _ _. refl) };

    fn partial_cmp(&self, other: &Pair) -> Option<Ordering> {
        Some(self.cmp(other))
    }
}

/// By key, byte by byte, and then by number.
impl Ord for Pair {
    ghost use Rattle.std.specs.Prelude.{refl};
    ghost use Rattle.ct_definitions.specs.Pairs.{pair_cmp};
    ghost use Rattle.ct_pairs.specs.Order.{pair_cmp_total};

    ghost cmp = { pair_cmp };

    ghost total = { pair_cmp_total };

    ghost matches_partial_cmp = { λ _ _. refl };

    ghost matches_eq = { λ _ _. refl };

    fn cmp(&self, other: &Pair) -> Ordering {
        if self.front != other.front {
            let (own, others) = (self.key.as_slice(), other.key.as_slice());
            return compare_by_fronts(self.front, own, other.front, others);
        }
        let (own, others) = (self.key.as_slice(), other.key.as_slice());
        compare_bytes(own, others).then(self.num.cmp(&other.num))
    }
}
