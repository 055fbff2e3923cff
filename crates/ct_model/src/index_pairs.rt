//! The pairs of each index of a file, through each change of a record.
//! What each change makes of them stands in `specs/EachIndex.antt`.

ghost use Rattle.std.specs.Prelude.{◌≡◌, length, true, false, IsErrOf, OnOk, OnErr};
ghost use Rattle.std.specs.List.{list_all};
ghost use Rattle.ct_definitions.specs.Keys.{key_of};
ghost use Rattle.ct_pairs.specs.Finds.{with_pair_of, without_pair_of, IsApart};
ghost use Rattle.ct_model.specs.Fitting.{reads_keys};
ghost use Rattle.ct_model.specs.EachIndex.{with_pairs_of, without_pairs_of, exchanged_pairs, has_same_key, is_taken_by, is_taken_among, AreApart, AreFresh};

use crate::change::Refused;
use crate::keys::is_taken_among;
use ct_definitions::IndexDef;
use ct_items::NoMemory;
use ct_key::{KeyBuf, key_of};
use ct_pairs::{Pair, Pairs};
use std::alloc::Global;

// the key of an image, where it has one in the index
fn key_in(alloc: Global, index: &IndexDef, image: &[u8]) -> Option<KeyBuf>
    requires { reads_keys index.now (length image.now) ≡ true }
    ensures { result ≡ key_of index.now image.now }
{
    let mut key = KeyBuf::new(alloc);
    if key_of(index.segs.as_slice(), index.null, image, &mut key) {
        Some(key)
    } else {
        None
    }
}

// puts the pair of a record, which is not among the pairs
fn put_pair(
    alloc: Global,
    pairs: &mut Pairs,
    index: &IndexDef,
    num: u64,
    image: &[u8],
) -> Result<(), NoMemory>
    requires reads { reads_keys index.now (length image.now) ≡ true }
    requires apart { IsApart index.now (record { num = num; image = image.now }) pairs.old }
    ensures ok { OnOk result (pairs.new ≡ with_pair_of index.now (record { num = num; image = image.now }) pairs.old) }
    ensures err { OnErr result (pairs.new ≡ pairs.old) }
{
    match key_in(alloc, index, image) {
        Some(key) => pairs.put(Pair::new(alloc, key.as_slice(), num)?),
        None => Ok(()),
    }
}

// takes the pair of a record
fn take_pair(alloc: Global, pairs: &mut Pairs, index: &IndexDef, num: u64, image: &[u8])
    requires { reads_keys index.now (length image.now) ≡ true }
    ensures { pairs.new ≡ without_pair_of index.now (record { num = num; image = image.now }) pairs.old }
{
    if let Some(key) = key_in(alloc, index, image) {
        pairs.take(key.as_slice(), num);
    }
}

// puts the pair of a record, which is not among the pairs, unless another has its key in a unique index
fn put_free_pair(
    alloc: Global,
    pairs: &mut Pairs,
    index: &IndexDef,
    num: u64,
    image: &[u8],
) -> Result<(), Refused>
    requires reads { reads_keys index.now (length image.now) ≡ true }
    requires apart { IsApart index.now (record { num = num; image = image.now }) pairs.old }
    ensures ok { OnOk result (pairs.new ≡ with_pair_of index.now (record { num = num; image = image.now }) pairs.old) }
    ensures free { OnOk result (is_taken_by index.now num image.now pairs.old ≡ false) }
    ensures taken { IsErrOf result Refused.NotDefined → is_taken_by index.now num image.now pairs.old ≡ true }
    ensures err { OnErr result (pairs.new ≡ pairs.old) }
{
    let mut key = KeyBuf::new(alloc);
    if !key_of(index.segs.as_slice(), index.null, image, &mut key) {
        return Ok(());
    }
    let pair = Pair::new(alloc, key.as_slice(), num)?;
    if !index.unique {
        pairs.put(pair)?;
        return Ok(());
    }
    if pairs.put_alone(pair)? {
        Ok(())
    } else {
        Err(Refused::NotDefined)
    }
}

// the same in each index; whether a key is taken where there is no memory is left open
fn put_each_free(
    alloc: Global,
    pairs: &mut [Pairs],
    indexes: &[IndexDef],
    num: u64,
    image: &[u8],
) -> Result<(), Refused>
    requires reads { list_all (λ index. reads_keys index (length image.now)) indexes.now ≡ true }
    requires apart { AreApart indexes.now (record { num = num; image = image.now }) pairs.old }
    ensures ok { OnOk result (pairs.new ≡ with_pairs_of indexes.now (record { num = num; image = image.now }) pairs.old) }
    ensures free { OnOk result (is_taken_among indexes.now num image.now pairs.old ≡ false) }
    ensures taken { IsErrOf result Refused.NotDefined → is_taken_among indexes.now num image.now pairs.old ≡ true }
    ensures err { OnErr result (pairs.new ≡ pairs.old) }
{
    let Some((index, others)) = indexes.split_first() else {
        return Ok(());
    };
    let Some((first, rest)) = pairs.split_first_mut() else {
        return Ok(());
    };
    put_free_pair(alloc, first, index, num, image)?;
    if let Err(refusal) = put_each_free(alloc, rest, others, num, image) {
        take_pair(alloc, first, index, num, image);
        return Err(refusal);
    }
    Ok(())
}

/// Puts the pairs of a record, which are not among those of any index, unless another has one of its keys in a
/// unique index.
pub(crate) fn put_free_pairs(
    alloc: Global,
    pairs: &mut [Pairs],
    indexes: &[IndexDef],
    num: u64,
    image: &[u8],
) -> Result<(), Refused>
    requires reads { list_all (λ index. reads_keys index (length image.now)) indexes.now ≡ true }
    requires apart { AreApart indexes.now (record { num = num; image = image.now }) pairs.old }
    ensures ok { OnOk result (pairs.new ≡ with_pairs_of indexes.now (record { num = num; image = image.now }) pairs.old) }
    ensures free { OnOk result (is_taken_among indexes.now num image.now pairs.old ≡ false) }
    ensures taken { IsErrOf result Refused.NotDefined → is_taken_among indexes.now num image.now pairs.old ≡ true }
    ensures memory { IsErrOf result Refused.Memory → is_taken_among indexes.now num image.now pairs.old ≡ false }
    ensures err { OnErr result (pairs.new ≡ pairs.old) }
{
    match put_each_free(alloc, pairs, indexes, num, image) {
        Ok(()) => Ok(()),
        Err(Refused::NotDefined) => Err(Refused::NotDefined),
        Err(Refused::Memory) => {
            if is_taken_among(alloc, indexes, pairs, num, image) {
                return Err(Refused::NotDefined);
            }
            Err(Refused::Memory)
        }
    }
}

/// Takes the pairs of a record.
pub(crate) fn take_pairs(
    alloc: Global,
    pairs: &mut [Pairs],
    indexes: &[IndexDef],
    num: u64,
    image: &[u8],
)
    requires { list_all (λ index. reads_keys index (length image.now)) indexes.now ≡ true }
    ensures { pairs.new ≡ without_pairs_of indexes.now (record { num = num; image = image.now }) pairs.old }
{
    let Some((index, others)) = indexes.split_first() else {
        return;
    };
    let Some((first, rest)) = pairs.split_first_mut() else {
        return;
    };
    take_pair(alloc, first, index, num, image);
    take_pairs(alloc, rest, others, num, image);
}

// whether both images have the same key in the index, or none
fn has_same_key(alloc: Global, index: &IndexDef, old: &[u8], new: &[u8]) -> bool
    requires old { reads_keys index.now (length old.now) ≡ true }
    requires new { reads_keys index.now (length new.now) ≡ true }
    ensures { result ≡ has_same_key index.now old.now new.now }
{
    let mut before = KeyBuf::new(alloc);
    let mut after = KeyBuf::new(alloc);
    let had = key_of(index.segs.as_slice(), index.null, old, &mut before);
    let has = key_of(index.segs.as_slice(), index.null, new, &mut after);
    if had && has {
        return before.as_slice() == after.as_slice();
    }
    had == has
}

/// Exchanges the pairs of a record for those that it has with another image.
///
/// In each index the new pair is put before the old one is taken, so that no memory is wanted to go
/// back.
pub(crate) fn exchange_pairs(
    alloc: Global,
    pairs: &mut [Pairs],
    indexes: &[IndexDef],
    num: u64,
    old: &[u8],
    new: &[u8],
) -> Result<(), NoMemory>
    requires old { list_all (λ index. reads_keys index (length old.now)) indexes.now ≡ true }
    requires new { list_all (λ index. reads_keys index (length new.now)) indexes.now ≡ true }
    requires fresh { AreFresh indexes.now num old.now new.now pairs.old }
    ensures ok { OnOk result (pairs.new ≡ exchanged_pairs indexes.now num old.now new.now pairs.old) }
    ensures err { OnErr result (pairs.new ≡ pairs.old) }
{
    let Some((index, others)) = indexes.split_first() else {
        return Ok(());
    };
    let Some((first, rest)) = pairs.split_first_mut() else {
        return Ok(());
    };
    if has_same_key(alloc, index, old, new) {
        return exchange_pairs(alloc, rest, others, num, old, new);
    }
    put_pair(alloc, first, index, num, new)?;
    if let Err(refusal) = exchange_pairs(alloc, rest, others, num, old, new) {
        take_pair(alloc, first, index, num, new);
        return Err(refusal);
    }
    take_pair(alloc, first, index, num, old);
    Ok(())
}
