//! A file made: its definition, and why it may be refused.
//! A line's numbers may be greater than a definition holds. Such a definition is not valid.

ghost use Rattle.std.specs.Prelude.{◌≡◌, List, ℕ, map, length, true, false, None, IfOk, IfErr, IfSome, IfNone};
ghost use Rattle.std.specs.List.{list_all};
ghost use Rattle.ct_definitions.specs.Validity.{is_valid, is_valid_kind, is_valid_seg, is_valid_index, least_len};
ghost use Rattle.ct_line.specs.declared.call.Call.TheVariants.{Create as CreateCall};
ghost use Rattle.ct_line.specs.declared.call.NewFile.{NewFile as SomeFile};
ghost use Rattle.ct_yard.specs.Telling.{telling};
ghost use Rattle.ct_yard.specs.Yards.{IsSettled};
ghost use Rattle.ct_isam.specs.Calls.{described, described_index, described_kind, described_seg, create_refusal};
ghost use Rattle.ct_isam.specs.Making.{ForEachLeast, IfTooGreat};
ghost use Rattle.ct_isam.specs.Places.{IsRefusedBy};
ghost use Rattle.ct_isam.specs.Serving.{Serves};
ghost use Rattle.ct_isam.specs.Told.{reply_of};
ghost use Rattle.ct_isam.specs.declared.session.Seat.{Seat as SomeSeat};

use crate::reply::Reply;
use ct_definitions::MOST_FILES;
use ct_disk::Disk;
use ct_items::{Items, NoMemory};
use ct_line::{NewFile, NewIndex, NewKind, NewSeg};
use ct_model::{Change, FileDef, IndexDef, Indexes, Kind, Seg, Segs, State, has_name, valid};
use ct_yard::Yard;
use std::alloc::Global;
use thiserror::Error;

/// Why a definition was not written down.
#[derive(Clone, Copy, Debug, PartialEq, Eq, Error)]
pub(crate) enum Undescribed {
    /// A number is too great for a valid one.
    #[error("a number is too great")]
    TooGreat,
    #[error("out of memory")]
    Memory,
}

impl From<NoMemory> for Undescribed {
    ghost use Rattle.std.specs.Prelude.{◌≡◌};
    ghost use Rattle.ct_isam.specs.declared.creating.Undescribed.TheVariants.{Memory};

    ghost from_gives = { λ _ fault. fault ≡ Memory };

    fn from(_refusal: NoMemory) -> Undescribed {
        Undescribed::Memory
    }
}

/// Makes the file that is described.
pub(crate) fn create<P: Disk, L: Disk>(
    alloc: Global,
    yard: &mut Yard<P, L>,
    file: &NewFile,
) -> Reply
    requires running { yard.old.halt ≡ None }
    requires settled { IsSettled yard.old }
    ensures serves { (seats : List SomeSeat) → Serves (telling L.tells L.faults L.content L.may_leave L.left_since) (CreateCall file.now) yard.old seats (reply_of seats result) yard.new seats }
    ensures settled { IsSettled yard.new }
    ensures pages { yard.new.pages ≡ yard.old.pages }
{
    match new_def(alloc, &yard.state, file) {
        Ok(def) => make(alloc, yard, def),
        Err(refusal) => refusal,
    }
}

/// Makes a file whose definition is not refused.
fn make<P: Disk, L: Disk>(alloc: Global, yard: &mut Yard<P, L>, def: FileDef) -> Reply
    requires running { yard.old.halt ≡ None }
    requires settled { IsSettled yard.old }
    requires fine { create_refusal yard.old.state def ≡ None }
    ensures serves { (file : SomeFile) → described file ≡ def → (seats : List SomeSeat) → Serves (telling L.tells L.faults L.content L.may_leave L.left_since) (CreateCall file) yard.old seats (reply_of seats result) yard.new seats }
    ensures settled { IsSettled yard.new }
    ensures pages { yard.new.pages ≡ yard.old.pages }
{
    let file = yard.state.files().len() as u16;
    match yard.commit(alloc, Change::Make { file, def }) {
        Ok(number) => Reply::Number(number),
        Err(fault) => Reply::from(fault),
    }
}

/// The definition of a new file, where it is not refused.
fn new_def(alloc: Global, state: &State, file: &NewFile) -> Result<FileDef, Reply>
    ensures ok { IfOk result (λ def. (described file.now ≡ def) × (create_refusal state.now def ≡ None)) }
    ensures err { IfErr result (IsRefusedBy (create_refusal state.now (described file.now))) }
{
    if has_name(state, file.name.as_slice()) {
        return Err(Reply::Exists);
    }
    let def = match described(alloc, file) {
        Ok(def) => def,
        Err(Undescribed::TooGreat) => return Err(Reply::BadDef),
        Err(Undescribed::Memory) => return Err(Reply::Memory),
    };
    if !valid(&def) {
        return Err(Reply::BadDef);
    }
    if state.files().len() >= MOST_FILES {
        return Err(Reply::FileFull);
    }
    Ok(def)
}

/// The definition that a new file is described by.
fn described(alloc: Global, file: &NewFile) -> Result<FileDef, Undescribed>
    ensures ok { IfOk result (λ def. described file.now ≡ def) }
    ensures err { IfErr result (λ why. IfTooGreat why (is_valid (described file.now) ≡ false)) }
{
    let Some(kind) = described_kind(file.kind) else {
        return Err(Undescribed::TooGreat);
    };
    let indexes = described_indexes(alloc, file.indexes.as_slice())?;
    let name = Items::from_slice(alloc, file.name.as_slice())?;
    Ok(FileDef {
        name,
        kind,
        indexes,
    })
}

/// The lengths of the images, where they are small enough for a definition.
fn described_kind(kind: NewKind) -> Option<Kind>
    ensures some { IfSome result (λ small. described_kind kind ≡ small) }
    ensures none { IfNone result (is_valid_kind (described_kind kind) ≡ false) }
{
    match kind {
        NewKind::Fixed { len } => fixed_kind(len),
        NewKind::Variable { min, max } => variable_kind(min, max),
    }
}

fn fixed_kind(len: u64) -> Option<Kind>
    ensures some { IfSome result (λ small. described_kind (NewKind.Fixed len) ≡ small) }
    ensures none { IfNone result (is_valid_kind (described_kind (NewKind.Fixed len)) ≡ false) }
{
    match u32::try_from(len) {
        Ok(len) => Some(Kind::Fixed(len)),
        Err(_) => None,
    }
}

fn variable_kind(min: u64, max: u64) -> Option<Kind>
    ensures some { IfSome result (λ small. described_kind (NewKind.Variable min max) ≡ small) }
    ensures none { IfNone result (is_valid_kind (described_kind (NewKind.Variable min max)) ≡ false) }
{
    match (u32::try_from(min), u32::try_from(max)) {
        (Ok(min), Ok(max)) => Some(Kind::Variable { min, max }),
        _ => None,
    }
}

/// The indexes, in order.
fn described_indexes(alloc: Global, indexes: &[NewIndex]) -> Result<Indexes, Undescribed>
    ensures ok { IfOk result (λ all. map described_index indexes.now ≡ all) }
    ensures err { IfErr result (λ why. IfTooGreat why (ForEachLeast (λ least. list_all (is_valid_index least) (map described_index indexes.now) ≡ false))) }
{
    let mut all = Items::new(alloc);
    for index in indexes {
        match described_index(alloc, index) {
            Ok(small) => all.push(small)?,
            Err(why) => return Err(why),
        }
    }
    Ok(all)
}

fn described_index(alloc: Global, index: &NewIndex) -> Result<IndexDef, Undescribed>
    ensures ok { IfOk result (λ small. described_index index.now ≡ small) }
    ensures err { IfErr result (λ why. IfTooGreat why (ForEachLeast (λ least. is_valid_index least (described_index index.now) ≡ false))) }
{
    let segs = described_segs(alloc, index.segs.as_slice())?;
    let name = Items::from_slice(alloc, index.name.as_slice())?;
    Ok(IndexDef {
        name,
        unique: index.unique,
        null: index.null,
        segs,
    })
}

/// The segments, in order.
fn described_segs(alloc: Global, segs: &[NewSeg]) -> Result<Segs, Undescribed>
    ensures ok { IfOk result (λ all. map described_seg segs.now ≡ all) }
    ensures err { IfErr result (λ why. IfTooGreat why (ForEachLeast (λ least. list_all (is_valid_seg least) (map described_seg segs.now) ≡ false))) }
{
    let mut all = Items::new(alloc);
    for seg in segs {
        match described_seg(*seg) {
            Some(small) => all.push(small)?,
            None => return Err(Undescribed::TooGreat),
        }
    }
    Ok(all)
}

/// A segment, where its place and its length are small enough for a definition.
fn described_seg(seg: NewSeg) -> Option<Seg>
    ensures some { IfSome result (λ small. described_seg seg ≡ small) }
    ensures none { IfNone result (ForEachLeast (λ least. is_valid_seg least (described_seg seg) ≡ false)) }
{
    match (u16::try_from(seg.at), u16::try_from(seg.len)) {
        (Ok(at), Ok(len)) => Some(Seg {
            at,
            len,
            mode: seg.mode,
            desc: seg.desc,
        }),
        _ => None,
    }
}
