//! How the pairs of an index follow its records: laws of the definitions.
//! Each law is the contract of a function that does nothing. Its caller learns the law at the
//! values that it passes.

ghost use Rattle.std.specs.Prelude.{◌≡◌, List, ℕ, true, false, Some, None, is_none};
ghost use Rattle.std.specs.List.{list_any};
ghost use Rattle.std.specs.List.Sorted.{IsStrictlySortedBy};
ghost use Rattle.ct_definitions.specs.Keys.{key_of};
ghost use Rattle.ct_definitions.specs.Room.{image_at};
ghost use Rattle.ct_definitions.specs.Changes.{with_row, with_image, without_row, has_key_of};
ghost use Rattle.ct_definitions.specs.Pairs.{Pair, pair_cmp, pairs_of};
ghost use Rattle.ct_definitions.specs.Reached.{rise_above};
ghost use Rattle.ct_pairs.specs.Finds.{has_pair, has_other_with, with_pair_of, without_pair_of, found_pair, IsApart, IsOfRecord};

use crate::seek::Seek;
use ct_definitions::{IndexDef, Row};

/// A record that is added brings its pair, where it has a key in the index.
pub fn pairs_of_one_more(index: &IndexDef, num: u64, image: &[u8], rows: &[Row])
    ensures pairs { pairs_of index.now (with_row (record { num = num; image = image.now }) rows.now)
        ≡ with_pair_of index.now (record { num = num; image = image.now }) (pairs_of index.now rows.now) }

    // The pair of a number that no record has is not among them.
    ensures apart { is_none (image_at num rows.now) ≡ true
        → IsApart index.now (record { num = num; image = image.now }) (pairs_of index.now rows.now) }
{}

/// A record that gets another image gives the pair of the old one up and brings that of the new one.
pub fn pairs_of_another_image(index: &IndexDef, num: u64, old: &[u8], new: &[u8], rows: &[Row])
    requires rising { rise_above 0 rows.now ≡ true }
    requires old { image_at num rows.now ≡ Some old.now }
    ensures pairs { pairs_of index.now (with_image num new.now rows.now)
        ≡ with_pair_of index.now (record { num = num; image = new.now })
        (without_pair_of index.now (record { num = num; image = old.now }) (pairs_of index.now rows.now)) }

    // The new pair is not among the others.
    ensures apart { IsApart index.now (record { num = num; image = new.now })
        (without_pair_of index.now (record { num = num; image = old.now }) (pairs_of index.now rows.now)) }
{}

/// A record that is taken out takes its pair with it.
pub fn pairs_of_one_less(index: &IndexDef, num: u64, old: &[u8], rows: &[Row])
    requires rising { rise_above 0 rows.now ≡ true }
    requires old { image_at num rows.now ≡ Some old.now }
    ensures { pairs_of index.now (without_row num rows.now)
        ≡ without_pair_of index.now (record { num = num; image = old.now }) (pairs_of index.now rows.now) }
{}

/// Each pair is below all those after it.
pub fn pairs_are_in_order(index: &IndexDef, rows: &[Row])
    requires { rise_above 0 rows.now ≡ true }
    ensures { IsStrictlySortedBy pair_cmp (pairs_of index.now rows.now) }
{}

/// Another record has the key of an image exactly where a pair of another number has it.
pub fn keys_are_those_of_pairs(index: &IndexDef, num: u64, image: &[u8], rows: &[Row])
    ensures key { (key : List ℕ) → key_of index.now image.now ≡ Some key
        → list_any (has_key_of index.now num image.now) rows.now
        ≡ has_other_with num key (pairs_of index.now rows.now) }
    ensures none { key_of index.now image.now ≡ None
        → list_any (has_key_of index.now num image.now) rows.now ≡ false }
{}

/// Each pair is that of a record: the record of its number has its key in the index.
pub fn pairs_have_records(index: &IndexDef, rows: &[Row])
    requires { rise_above 0 rows.now ≡ true }
    ensures { (pair : Pair) → has_pair pair (pairs_of index.now rows.now) ≡ true
        → IsOfRecord index.now rows.now pair }
{}

/// What a search finds is one of the pairs, and so that of a record.
pub fn found_pairs_have_records(index: &IndexDef, rows: &[Row], seek: Seek<'_>)
    requires { rise_above 0 rows.now ≡ true }
    ensures among { (pair : Pair) → found_pair seek.entry (pairs_of index.now rows.now) ≡ Some pair
        → has_pair pair (pairs_of index.now rows.now) ≡ true }
    ensures record_of { (pair : Pair) → found_pair seek.entry (pairs_of index.now rows.now) ≡ Some pair
        → IsOfRecord index.now rows.now pair }
{}
