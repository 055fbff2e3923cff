//! Whether an image may stand in a file: the length, the keys that other records have, and the room.
//! The rules stand in `specs/Changes.antt` of the definitions.

ghost use Rattle.std.specs.Prelude.{◌≡◌, true, length};
ghost use Rattle.std.specs.List.{list_all};
ghost use Rattle.ct_definitions.specs.Room.{has_fitting_len};
ghost use Rattle.ct_definitions.specs.Changes.{has_taken_key, may_stand};
ghost use Rattle.ct_model.specs.EachIndex.{is_taken_by, is_taken_among};
ghost use Rattle.ct_definitions.specs.Reached.{rise_above};
ghost use Rattle.ct_model.specs.Fitting.{is_fitting, reads_keys, has_place, has_new_place};
ghost use Rattle.ct_model.specs.Stored.{IsStored};

use crate::cache::Cache;
use crate::room::{has_fitting_len, has_room_beside};
use crate::rows::image_at;
use crate::validity::longest_len;
use ct_definitions::{File, IndexDef};
use ct_key::{KeyBuf, key_of};
use ct_pairs::Pairs;
use std::alloc::Global;

// whether a pair of another number has the image's key in the index, which is unique
fn is_taken_by(alloc: Global, index: &IndexDef, pairs: &Pairs, num: u64, image: &[u8]) -> bool
    requires { reads_keys index.now (length image.now) ≡ true }
    ensures { result ≡ is_taken_by index.now num image.now pairs.now }
{
    if !index.unique {
        return false;
    }
    let mut key = KeyBuf::new(alloc);
    if !key_of(index.segs.as_slice(), index.null, image, &mut key) {
        return false;
    }
    pairs.has_other_with(num, key.as_slice())
}

/// Whether a pair of another number has the image's key in some unique index.
pub(crate) fn is_taken_among(
    alloc: Global,
    indexes: &[IndexDef],
    pairs: &[Pairs],
    num: u64,
    image: &[u8],
) -> bool
    requires { list_all (λ index. reads_keys index (length image.now)) indexes.now ≡ true }
    ensures { result ≡ is_taken_among indexes.now num image.now pairs.now }
{
    let Some((index, others)) = indexes.split_first() else {
        return false;
    };
    let Some((first, rest)) = pairs.split_first() else {
        return false;
    };
    is_taken_by(alloc, index, first, num, image) || is_taken_among(alloc, others, rest, num, image)
}

/// Whether another record of the file has a key of the image in a unique index.
pub(crate) fn is_key_taken(
    alloc: Global,
    file: &File,
    cache: &Cache,
    num: u64,
    image: &[u8],
) -> bool
    requires stored { IsStored file.now cache.now }
    requires len { has_fitting_len file.now.def.kind (length image.now) ≡ true }
    ensures { result ≡ has_taken_key file.now num image.now }
{
    let indexes = file.def.indexes.as_slice();
    is_taken_among(alloc, indexes, cache.pairs.as_slice(), num, image)
}

// whether the image has a length that the file allows, and room beside the other records
fn has_place(file: &File, num: u64, image: &[u8]) -> bool
    requires fitting { is_fitting file.now ≡ true }
    requires rising { rise_above 0 file.now.records ≡ true }
    ensures { result ≡ has_place file.now num image.now }
{
    if !has_fitting_len(file.def.kind, image.len()) {
        return false;
    }
    let longest = longest_len(file.def.kind) as usize;
    has_room_beside(num, image, longest, file.records.as_slice())
}

/// Whether the image may stand in the file but for its keys, under a number that no record has.
pub(crate) fn has_new_place(file: &File, num: u64, image: &[u8]) -> bool
    requires fitting { is_fitting file.now ≡ true }
    requires rising { rise_above 0 file.now.records ≡ true }
    ensures { result ≡ has_new_place file.now num image.now }
{
    if num == 0 || image_at(num, file.records.as_slice()).is_some() {
        return false;
    }
    has_place(file, num, image)
}

/// Whether the image may stand under the number beside the other records of the file.
pub(crate) fn can_stand(alloc: Global, file: &File, cache: &Cache, num: u64, image: &[u8]) -> bool
    requires { IsStored file.now cache.now }
    ensures { result ≡ may_stand file.now num image.now }
{
    if !has_place(file, num, image) {
        return false;
    }
    !is_key_taken(alloc, file, cache, num, image)
}
