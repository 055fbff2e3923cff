//! The record that a search finds in an index, by its number.

ghost use Rattle.std.specs.Prelude.{◌≡◌};
ghost use Rattle.std.specs.Option.{option_copied};
ghost use Rattle.ct_definitions.specs.Pairs.{pairs_of};
ghost use Rattle.ct_pairs.specs.Finds.{found_pair};
ghost use Rattle.ct_isam.specs.Looking.{number_of};
ghost use Rattle.ct_isam.specs.Places.{IsPlace};

use crate::places::Place;
use ct_model::State;
use ct_pairs::{Pair, Seek};

/// The number of the record whose pair the search finds in the index.
pub(crate) fn found_num(state: &State, place: &Place<'_>, seek: Seek<'_>) -> Option<u64>
    requires { IsPlace state.now place.now }
    ensures { result ≡ number_of (found_pair seek.entry (pairs_of place.now.def.now place.now.found.now.records)) }
{
    num_of(state.find(place.file, place.index, seek))
}

/// The number of a pair's record.
fn num_of(pair: Option<&Pair>) -> Option<u64>
    ensures { result ≡ number_of (option_copied pair.entry) }
{
    match pair {
        Some(pair) => Some(pair.num()),
        None => None,
    }
}
