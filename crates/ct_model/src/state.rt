//! A store's state: its files, numbered from 0.
//! Files and indexes are found by their names, the first of a name where there are more.

ghost use Rattle.std.specs.Prelude.{◌≡◌, ◌<◌, ◌≤◌, ◌^◌, ℕ, [], ◌∷◌, ◌++◌, length, slice_get, true, false, bytes_eq, position, IfSome, IfNone, IsErrOf, OnOk, OnErr};
ghost use Rattle.std.specs.Option.{option_copied};
ghost use Rattle.ct_definitions.specs.Validity.{is_valid};
ghost use Rattle.ct_definitions.specs.Changes.{has_name, has_taken_key, may_stand, passes, in_file, with_row, with_image, without_row};
ghost use Rattle.ct_definitions.specs.Reached.{rise_above};
ghost use Rattle.ct_model.specs.Fitting.{is_fitting, are_fitting, takes_len_in, may_be_added};
ghost use Rattle.ct_model.specs.Free.{IsFree, IsNotFree};
ghost use Rattle.ct_model.specs.Stored.{are_rising, records_at, found_in};

use crate::cache::Cache;
use crate::change::Refused;
use crate::keys::{can_stand, is_key_taken};
use crate::stored::{add_row, delete_row, lowest_free_in_file, new_cache, new_file, rewrite_row};
use ct_definitions::{Bytes, File, FileDef, LONGEST_IMAGE};
use ct_items::NoMemory;
use ct_pairs::{Pair, Pairs, Seek};
use std::alloc::Global;
use std::marker::Model;

/// The address of a record: its file's number, from 0, and its own, from 1.
#[derive(Clone, Copy, Debug, PartialEq, Eq)]
pub struct Record {
    pub file: u16,
    pub num: u64,
}

/// The files of a store in the order of their making.
/// Each definition is valid, each image has a length that its file allows, and numbers rise.
#[derive(Drop)]
pub struct State {
    files: Vec<File>,
    caches: Vec<Cache>,
}

impl Model for State {
    ghost use Rattle.std.specs.Prelude.{List};
    ghost use Rattle.ct_definitions.specs.declared.store.File.{File};
    ghost use Rattle.ct_model.specs.Stored.{AreStored};

    ghost Value = { List File };

    ghost view = { λ state. state.files.items };

    ghost invariant = { λ state. AreStored state.files.items state.caches.items };
}

impl State {
    /// A store with no files.
    pub fn new(alloc: Global) -> State
        ensures { result ≡ [] }
    {
        State {
            files: Vec::new(alloc),
            caches: Vec::new(alloc),
        }
    }

    /// The files, each at its number.
    pub fn files(&self) -> &[File]
        ensures files { result.now ≡ self.now }
        ensures fitting { are_fitting self.now ≡ true }
        ensures rising { are_rising self.now ≡ true }
    {
        let _caches = &self.caches;
        self.files.as_slice()
    }

    /// The pair that a search finds in an index of a file, or none where there is no such index.
    pub fn find(&self, file: u16, index: usize, seek: Seek<'_>) -> Option<&Pair>
        ensures { option_copied result ≡ found_in (slice_get self.now file) index seek.entry }
    {
        let Some(cache) = cache_at(usize::from(file), self.caches.as_slice()) else {
            return None;
        };
        let Some(pairs) = pairs_at(index, cache.pairs.as_slice()) else {
            return None;
        };
        pairs.find(seek)
    }

    /// The allocator of the state.
    pub(crate) fn allocator(&self) -> Global {
        *self.files.allocator()
    }

    /// Adds a file with no records.
    pub(crate) fn push_file(&mut self, alloc: Global, def: FileDef) -> Result<(), NoMemory>
        requires { is_valid def ≡ true }
        ensures ok { OnOk result (self.new ≡ self.old ++ record { def = def; records = [] } ∷ []) }
        ensures err { OnErr result (self.new ≡ self.old) }
    {
        let file = new_file(alloc, def);
        let cache = new_cache(alloc, &file)?;
        self.files.push(file)?;
        if self.caches.push(cache).is_err() {
            let _file = self.files.pop();
            return Err(NoMemory);
        }
        Ok(())
    }

    /// Puts a record into a file, where it may stand there under a number that none has.
    pub(crate) fn add_row(&mut self, file: u16, num: u64, image: Bytes) -> Result<(), Refused>
        ensures ok { OnOk result (self.new ≡ in_file self.old file (with_row (record { num = num; image = image }))) }
        ensures allowed { OnOk result (passes (slice_get self.old file) (λ f. may_be_added f num image) ≡ true) }
        ensures refused { IsErrOf result Refused.NotDefined → passes (slice_get self.old file) (λ f. may_be_added f num image) ≡ false }
        ensures memory { IsErrOf result Refused.Memory → passes (slice_get self.old file) (λ f. may_be_added f num image) ≡ true }
        ensures err { OnErr result (self.new ≡ self.old) }
    {
        let place = usize::from(file);
        if place >= self.files.len() {
            return Err(Refused::NotDefined);
        }
        let alloc = *self.files.allocator();
        add_row(
            alloc,
            &mut self.files[place],
            &mut self.caches[place],
            num,
            image,
        )
    }

    /// Gives the record of the number in a file another image.
    pub(crate) fn rewrite_row(&mut self, file: u16, num: u64, image: Bytes) -> Result<(), NoMemory>
        requires file { file < length self.old }
        requires len { takes_len_in (slice_get self.old file) (length image) ≡ true }
        ensures ok { OnOk result (self.new ≡ in_file self.old file (with_image num image)) }
        ensures err { OnErr result (self.new ≡ self.old) }
    {
        let place = usize::from(file);
        let alloc = *self.files.allocator();
        rewrite_row(
            alloc,
            &mut self.files[place],
            &mut self.caches[place],
            num,
            image,
        )
    }

    /// Takes the record of the number out of a file.
    pub(crate) fn delete_row(&mut self, file: u16, num: u64)
        requires { file < length self.old }
        ensures { self.new ≡ in_file self.old file (without_row num) }
    {
        let place = usize::from(file);
        let alloc = *self.files.allocator();
        delete_row(alloc, &mut self.files[place], &mut self.caches[place], num);
    }
}

// what is kept beside the file at a place
fn cache_at(place: usize, caches: &[Cache]) -> Option<&Cache>
    ensures { option_copied result ≡ slice_get caches.now place }
{
    caches.get(place)
}

// the pairs of the index at a place
fn pairs_at(place: usize, pairs: &[Pairs]) -> Option<&Pairs>
    ensures { option_copied result ≡ slice_get pairs.now place }
{
    pairs.get(place)
}

/// The lowest number, from 1 on, that no record of the file has and whose block has room for an
/// image of `len` bytes.
pub fn lowest_free(state: &State, file: u16, len: usize) -> Option<u64>
    requires file { file < length state.now }
    requires len { len ≤ LONGEST_IMAGE }
    ensures found { IfSome result (λ num. (1 ≤ num) × IsFree num len (records_at state.now file)) }
    ensures lowest { IfSome result (λ num. (lower : ℕ) → 1 ≤ lower → lower < num → IsNotFree lower len (records_at state.now file)) }
    ensures none { IfNone result ((num : ℕ) → 1 ≤ num → num < 2 ^ 64 → IsNotFree num len (records_at state.now file)) }
{
    let place = usize::from(file);
    lowest_free_in_file(&state.files[place], &state.caches[place], len)
}

/// Whether another record of the file has a key of the image in a unique index.
/// It answers without memory, too.
pub fn has_taken_key(alloc: Global, state: &State, file: u16, num: u64, image: &[u8]) -> bool
    requires file { file < length state.now }
    requires len { takes_len_in (slice_get state.now file) (length image.now) ≡ true }
    ensures { result ≡ passes (slice_get state.now file) (λ f. has_taken_key f num image.now) }
{
    let place = usize::from(file);
    is_key_taken(alloc, &state.files[place], &state.caches[place], num, image)
}

/// Whether the image may stand under the number beside the other records of the file: it has a
/// length that the file allows, no key in a unique index that another record has, and room.
/// It answers without memory, too.
pub fn may_stand(alloc: Global, state: &State, file: u16, num: u64, image: &[u8]) -> bool
    requires { file < length state.now }
    ensures { result ≡ passes (slice_get state.now file) (λ f. may_stand f num image.now) }
{
    let place = usize::from(file);
    can_stand(alloc, &state.files[place], &state.caches[place], num, image)
}

/// The file of the number, from 0.
pub fn file_at(state: &State, file: u16) -> Option<&File>
    ensures found { option_copied result ≡ slice_get state.now file }
    ensures fitting { IfSome result (λ found. is_fitting found.now ≡ true) }
    ensures rising { IfSome result (λ found. rise_above 0 found.now.records ≡ true) }
{
    state.files().get(usize::from(file))
}

/// Whether a file of the state has the name.
pub fn has_name(state: &State, name: &[u8]) -> bool
    ensures { result ≡ has_name state.now name.now }
{
    state
        .files()
        .iter()
        .any(|file| file.def.name.as_slice() == name)
}

/// The number of the first file that has the name.
pub fn file_named(state: &State, name: &[u8]) -> Option<usize>
    ensures { result ≡ position (λ file. bytes_eq file.def.name name.now) state.now }
{
    state
        .files()
        .iter()
        .position(|file| file.def.name.as_slice() == name)
}

/// The place of the first index of the definition that has the name.
pub fn index_named(def: &FileDef, name: &[u8]) -> Option<usize>
    ensures { result ≡ position (λ index. bytes_eq index.name name.now) def.now.indexes }
{
    def.indexes
        .as_slice()
        .iter()
        .position(|index| index.name.as_slice() == name)
}
