//! The pairs of an index as a session sees them: the shared ones beside its own changes.
//! What a session sees is said in `specs/Overlays.antt`.

ghost use Rattle.std.specs.Prelude.{◌≡◌, [], List, false, OnOk, OnErr};
ghost use Rattle.std.specs.List.Sorted.{IsStrictlySortedBy};
ghost use Rattle.std.specs.Option.{option_copied};
ghost use Rattle.ct_definitions.specs.Pairs.{Pair as SomePair, pair_cmp};
ghost use Rattle.ct_pairs.specs.Finds.{has_pair, found_pair};
ghost use Rattle.ct_tran.specs.Overlays.{Overlaying, without_pairs, overlaid, with_taken, with_put, goes_back, chosen};

use ct_items::NoMemory;
use ct_pairs::{Pair, Pairs, Seek};
use std::alloc::Global;
use std::marker::Model;

/// Of one index, the shared pairs that own changes take away and the pairs that they put.
///
/// Each call costs the logarithm of the number of these pairs.
#[derive(Drop)]
pub struct Overlay {
    takes: Pairs,
    puts: Pairs,
}

impl Model for Overlay {
    ghost use Rattle.std.specs.List.Sorted.{IsStrictlySortedBy};
    ghost use Rattle.ct_definitions.specs.Pairs.{pair_cmp};
    ghost use Rattle.ct_tran.specs.Overlays.{Overlaying};

    ghost Value = { Overlaying };

    ghost view = { λ own. record { takes = own.takes; puts = own.puts } };

    ghost invariant = { λ own. IsStrictlySortedBy pair_cmp own.puts };
}

impl Overlay {
    /// Nothing taken away and nothing put.
    pub fn new(alloc: Global) -> Overlay
        ensures { result ≡ record { takes = []; puts = [] } }
    {
        Overlay {
            takes: Pairs::new(alloc),
            puts: Pairs::new(alloc),
        }
    }

    /// Takes away a pair that the session sees: one that own changes put, or a shared one.
    pub fn take(&mut self, pair: Pair) -> Result<(), NoMemory>
        requires once { has_pair pair self.old.takes ≡ false }
        ensures ok { OnOk result (self.new ≡ with_taken pair self.old) }
        ensures err { OnErr result (self.new ≡ self.old) }
    {
        if self.puts.contains(&pair) {
            self.puts.take(pair.key(), pair.num());
            return Ok(());
        }
        self.takes.put(pair)
    }

    /// Puts a pair that the session does not see: one that own changes took away, or a new one.
    pub fn put(&mut self, pair: Pair) -> Result<(), NoMemory>
        requires once { has_pair pair self.old.puts ≡ false }
        ensures ok { OnOk result (self.new ≡ with_put pair self.old) }
        ensures err { OnErr result (self.new ≡ self.old) }
    {
        if self.takes.contains(&pair) {
            self.takes.take(pair.key(), pair.num());
            return Ok(());
        }
        self.puts.put(pair)
    }

    /// Whether own changes take a shared pair away, so that a search passes it over.
    pub fn passes_over(&self, pair: &Pair) -> bool
        ensures { result ≡ has_pair pair.now self.now.takes }
    {
        self.takes.contains(pair)
    }

    /// What a search finds among the pairs that own changes put.
    pub fn find(&self, seek: Seek<'_>) -> Option<&Pair>
        ensures found { option_copied result ≡ found_pair seek.entry self.now.puts }
        ensures order { IsStrictlySortedBy pair_cmp self.now.puts }
    {
        self.puts.find(seek)
    }

    /// What a search finds among what the session sees, of what it found among the shared pairs that own
    /// changes do not take away.
    pub fn chosen<'a>(&'a self, seek: Seek<'_>, shared: Option<&'a Pair>) -> Option<&'a Pair>
        ensures chosen { option_copied result ≡ chosen seek.entry (option_copied shared.entry) (found_pair seek.entry self.now.puts) }
        ensures found { (pairs : List SomePair) → IsStrictlySortedBy pair_cmp pairs
            → option_copied shared.entry ≡ found_pair seek.entry (without_pairs self.now.takes pairs)
            → option_copied result ≡ found_pair seek.entry (overlaid self.now pairs) }
    {
        choice(seek, shared, self.find(seek))
    }
}

/// Of what a search found among the shared pairs and among the own ones, what it finds among both.
fn choice<'a>(seek: Seek<'_>, shared: Option<&'a Pair>, own: Option<&'a Pair>) -> Option<&'a Pair>
    ensures { option_copied result ≡ chosen seek.entry (option_copied shared.entry) (option_copied own.entry) }
{
    let Some(own) = own else {
        return shared;
    };
    let Some(shared) = shared else {
        return Some(own);
    };
    if (own < shared) == goes_back(seek) {
        Some(shared)
    } else {
        Some(own)
    }
}

/// Whether a search looks for a greatest pair.
fn goes_back(seek: Seek<'_>) -> bool
    ensures { result ≡ goes_back seek.entry }
{
    matches!(
        seek,
        Seek::Last | Seek::Prev(_) | Seek::AtOrBelow(_) | Seek::Below(_)
    )
}
