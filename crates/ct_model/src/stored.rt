//! A file with what is kept beside it, through each change of its records.
//! What holds of both stands in `specs/Stored.antt`.

ghost use Rattle.std.specs.Prelude.{◌≡◌, ◌<◌, ◌≤◌, ℕ, [], length, true, false, None, IfSome, IfNone, IfOk, IsErrOf, OnOk, OnErr, ◌^◌};
ghost use Rattle.ct_definitions.specs.Validity.{is_valid};
ghost use Rattle.ct_definitions.specs.Room.{has_fitting_len, row_at, block_of};
ghost use Rattle.ct_definitions.specs.Changes.{with_row, with_image, without_row, with_records, has_taken_key};
ghost use Rattle.ct_model.specs.Fitting.{may_be_added};
ghost use Rattle.ct_model.specs.Free.{IsFree, IsNotFree};
ghost use Rattle.ct_model.specs.EachIndex.{pairs_of_each};
ghost use Rattle.ct_model.specs.Stored.{IsStored};

use crate::cache::Cache;
use crate::change::Refused;
use crate::index_pairs::{exchange_pairs, put_free_pairs, take_pairs};
use crate::keys::has_new_place;
use crate::room::{lowest_free_from, open_after};
use crate::rows::{image_at, put_image, put_row, take_row};
use crate::validity::least_len;
use ct_definitions::{Bytes, File, FileDef, IndexDef, LONGEST_IMAGE, RECORDS_PER_BLOCK, Row, Rows};
use ct_items::NoMemory;
use ct_pairs::Pairs;
use std::alloc::Global;

/// A file with no records.
pub(crate) fn new_file(alloc: Global, def: FileDef) -> File
    ensures { result ≡ record { def = def; records = [] } }
{
    File {
        def,
        records: Rows::new(alloc),
    }
}

// no pairs for each index
fn no_pairs(alloc: Global, indexes: &[IndexDef]) -> Result<Vec<Pairs>, NoMemory>
    ensures { IfOk result (λ pairs. pairs.items ≡ pairs_of_each indexes.now []) }
{
    let mut pairs = Vec::new(alloc);
    for _index in indexes {
        pairs.push(Pairs::new(alloc))?;
    }
    Ok(pairs)
}

/// What is kept beside a file with no records.
pub(crate) fn new_cache(alloc: Global, file: &File) -> Result<Cache, NoMemory>
    requires valid { is_valid file.now.def ≡ true }
    requires empty { file.now.records ≡ [] }
    ensures { IfOk result (λ cache. IsStored file.now cache) }
{
    let pairs = no_pairs(alloc, file.def.indexes.as_slice())?;
    Ok(Cache {
        full_below: 0,
        pairs,
    })
}

// puts a record of a free number into the file, unless another has a key of it in a unique index
fn put_record(
    alloc: Global,
    file: &mut File,
    cache: &mut Cache,
    num: u64,
    image: Bytes,
) -> Result<(), Refused>
    requires stored { IsStored file.old cache.old }
    requires len { has_fitting_len file.old.def.kind (length image) ≡ true }
    requires num { 1 ≤ num }
    requires free { row_at num file.old.records ≡ None }
    ensures ok { OnOk result (file.new ≡ with_records file.old (with_row (record { num = num; image = image }) file.old.records)) }
    ensures free { OnOk result (has_taken_key file.old num image ≡ false) }
    ensures taken { IsErrOf result Refused.NotDefined → has_taken_key file.old num image ≡ true }
    ensures memory { IsErrOf result Refused.Memory → has_taken_key file.old num image ≡ false }
    ensures err { OnErr result (file.new ≡ file.old) }
    ensures stored { IsStored file.new cache.new }
{
    let indexes = file.def.indexes.as_slice();
    let pairs = cache.pairs.as_mut_slice();
    if let Err(refusal) = put_free_pairs(alloc, pairs, indexes, num, image.as_slice()) {
        return Err(refusal);
    }
    if let Err(row) = put_row(alloc, &mut file.records, Row { num, image }) {
        take_pairs(alloc, pairs, indexes, num, row.image.as_slice());
        return Err(Refused::Memory);
    }
    let least = least_len(file.def.kind) as usize;
    cache.full_below = open_after(cache.full_below, num, least, file.records.as_slice());
    Ok(())
}

/// Puts a record into the file, where it may stand there under a number that none has.
pub(crate) fn add_row(
    alloc: Global,
    file: &mut File,
    cache: &mut Cache,
    num: u64,
    image: Bytes,
) -> Result<(), Refused>
    requires { IsStored file.old cache.old }
    ensures ok { OnOk result (file.new ≡ with_records file.old (with_row (record { num = num; image = image }) file.old.records)) }
    ensures allowed { OnOk result (may_be_added file.old num image ≡ true) }
    ensures refused { IsErrOf result Refused.NotDefined → may_be_added file.old num image ≡ false }
    ensures memory { IsErrOf result Refused.Memory → may_be_added file.old num image ≡ true }
    ensures err { OnErr result (file.new ≡ file.old) }
    ensures stored { IsStored file.new cache.new }
{
    if !has_new_place(file, num, image.as_slice()) {
        return Err(Refused::NotDefined);
    }
    put_record(alloc, file, cache, num, image)
}

/// Gives the record of the number in the file another image.
pub(crate) fn rewrite_row(
    alloc: Global,
    file: &mut File,
    cache: &mut Cache,
    num: u64,
    image: Bytes,
) -> Result<(), NoMemory>
    requires stored { IsStored file.old cache.old }
    requires len { has_fitting_len file.old.def.kind (length image) ≡ true }
    ensures ok { OnOk result (file.new ≡ with_records file.old (with_image num image file.old.records)) }
    ensures err { OnErr result (file.new ≡ file.old) }
    ensures stored { IsStored file.new cache.new }
{
    let Some(old) = image_at(num, file.records.as_slice()) else {
        return Ok(());
    };
    let shrinks = image.as_slice().len() < old.len();
    let indexes = file.def.indexes.as_slice();
    let pairs = cache.pairs.as_mut_slice();
    exchange_pairs(alloc, pairs, indexes, num, old, image.as_slice())?;
    put_image(&mut file.records, num, image);
    if shrinks {
        cache.full_below = cache.full_below.min(num / RECORDS_PER_BLOCK);
    }
    Ok(())
}

/// Takes the record of the number out of the file.
pub(crate) fn delete_row(alloc: Global, file: &mut File, cache: &mut Cache, num: u64)
    requires { IsStored file.old cache.old }
    ensures rows { file.new ≡ with_records file.old (without_row num file.old.records) }
    ensures stored { IsStored file.new cache.new }
{
    let Some(old) = image_at(num, file.records.as_slice()) else {
        return;
    };
    let indexes = file.def.indexes.as_slice();
    take_pairs(alloc, cache.pairs.as_mut_slice(), indexes, num, old);
    take_row(&mut file.records, num);
    cache.full_below = cache.full_below.min(num / RECORDS_PER_BLOCK);
}

/// The lowest number, from 1 on, that is free in the file for images of `len` bytes.
pub(crate) fn lowest_free_in_file(file: &File, cache: &Cache, len: usize) -> Option<u64>
    requires stored { IsStored file.now cache.now }
    requires len { len ≤ LONGEST_IMAGE }
    ensures found { IfSome result (λ num. (1 ≤ num) × IsFree num len file.now.records) }
    ensures lowest { IfSome result (λ num. (lower : ℕ) → 1 ≤ lower → lower < num → IsNotFree lower len file.now.records) }
    ensures none { IfNone result ((num : ℕ) → 1 ≤ num → num < 2 ^ 64 → IsNotFree num len file.now.records) }
{
    let rows = file.records.as_slice();
    if len < least_len(file.def.kind) as usize {
        return lowest_free_from(0, len, rows);
    }
    lowest_free_from(cache.full_below, len, rows)
}
