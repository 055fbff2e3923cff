//! The rest of a CREATE, word by word.
//! An index is closed when the next one begins, or the line ends.

ghost use Rattle.std.specs.Prelude.{◌≡◌, [], IfOk};
ghost use Rattle.ct_line.specs.declared.reading.Creating.TheVariants.{Kind, Key, Rule, NullOrSeg, NullByte, Seg, SegMode, SegAt, SegLen, Desc};
ghost use Rattle.ct_line.specs.Grammar.{next_of_create, created, opened, after_segment, with_seg, closed, Goes};

use crate::call::{NewFile, NewIndex, NewIndexes, NewKind, NewSeg, NewSegs};
use crate::commands::{byte_of, is, mode_of, name_of, number_of};
use crate::reading::{Creating, Indexed, Misfit};
use ct_definitions::{Mode, Name};
use ct_items::NoMemory;
use std::alloc::Global;

/// The index with one segment more.
fn with_seg(indexed: Indexed, seg: NewSeg) -> Result<Indexed, NoMemory>
    ensures { IfOk result (λ more. more ≡ with_seg indexed seg) }
{
    let Indexed { file, mut index } = indexed;
    index.segs.push(seg)?;
    Ok(Indexed { file, index })
}

/// The file with the index that was read.
pub(crate) fn closed(indexed: Indexed) -> Result<NewFile, NoMemory>
    ensures { IfOk result (λ file. file ≡ closed indexed) }
{
    let Indexed { mut file, index } = indexed;
    file.indexes.push(index)?;
    Ok(file)
}

/// What comes after a segment and this word.
fn after_segment(indexed: Indexed, word: &[u8]) -> Result<Creating, Misfit>
    ensures { Goes result (after_segment indexed word.now) }
{
    if is(word, b"SEG") {
        Ok(Creating::SegMode(indexed))
    } else if is(word, b"KEY") {
        Ok(Creating::KeyName(closed(indexed)?))
    } else {
        Err(Misfit::Word)
    }
}

fn after_kind(name: Name, word: &[u8]) -> Result<Creating, Misfit>
    ensures { Goes result (next_of_create (Kind name) word.now) }
{
    if is(word, b"FIX") {
        Ok(Creating::FixedLen { name })
    } else if is(word, b"VAR") {
        Ok(Creating::Min { name })
    } else {
        Err(Misfit::Word)
    }
}

fn after_lengths(alloc: Global, name: Name, kind: NewKind) -> Creating
    ensures { result ≡ Key (record { name = name; kind = kind; indexes = [] }) }
{
    Creating::Key(NewFile {
        name,
        kind,
        indexes: NewIndexes::new(alloc),
    })
}

fn after_key(file: NewFile, word: &[u8]) -> Result<Creating, Misfit>
    ensures { Goes result (next_of_create (Key file) word.now) }
{
    if is(word, b"KEY") {
        Ok(Creating::KeyName(file))
    } else {
        Err(Misfit::Word)
    }
}

/// The index that a rule begins.
fn opened(alloc: Global, file: NewFile, name: Name, unique: bool) -> Indexed
    ensures { result ≡ opened file name unique }
{
    let index = NewIndex {
        name,
        unique,
        null: None,
        segs: NewSegs::new(alloc),
    };
    Indexed { file, index }
}

fn after_rule(alloc: Global, file: NewFile, name: Name, word: &[u8]) -> Result<Creating, Misfit>
    ensures { Goes result (next_of_create (Rule file name) word.now) }
{
    if is(word, b"UNIQUE") {
        Ok(Creating::NullOrSeg(opened(alloc, file, name, true)))
    } else if is(word, b"DUP") {
        Ok(Creating::NullOrSeg(opened(alloc, file, name, false)))
    } else {
        Err(Misfit::Word)
    }
}

fn after_null_or_seg(indexed: Indexed, word: &[u8]) -> Result<Creating, Misfit>
    ensures { Goes result (next_of_create (NullOrSeg indexed) word.now) }
{
    if is(word, b"NULL") {
        Ok(Creating::NullByte(indexed))
    } else {
        after_seg(indexed, word)
    }
}

fn after_null_byte(indexed: Indexed, word: &[u8]) -> Result<Creating, Misfit>
    ensures { Goes result (next_of_create (NullByte indexed) word.now) }
{
    let Some(null) = byte_of(word) else {
        return Err(Misfit::Word);
    };
    let Indexed { file, mut index } = indexed;
    index.null = Some(null);
    Ok(Creating::Seg(Indexed { file, index }))
}

fn after_seg(indexed: Indexed, word: &[u8]) -> Result<Creating, Misfit>
    ensures { Goes result (next_of_create (Seg indexed) word.now) }
{
    if is(word, b"SEG") {
        Ok(Creating::SegMode(indexed))
    } else {
        Err(Misfit::Word)
    }
}

fn after_mode(indexed: Indexed, word: &[u8]) -> Result<Creating, Misfit>
    ensures { Goes result (next_of_create (SegMode indexed) word.now) }
{
    let Some(mode) = mode_of(word) else {
        return Err(Misfit::Word);
    };
    Ok(Creating::SegAt { indexed, mode })
}

fn after_at(indexed: Indexed, mode: Mode, word: &[u8]) -> Result<Creating, Misfit>
    ensures { Goes result (next_of_create (SegAt indexed mode) word.now) }
{
    let Some(at) = number_of(word) else {
        return Err(Misfit::Word);
    };
    Ok(Creating::SegLen { indexed, mode, at })
}

fn after_len(indexed: Indexed, mode: Mode, at: u64, word: &[u8]) -> Result<Creating, Misfit>
    ensures { Goes result (next_of_create (SegLen indexed mode at) word.now) }
{
    let Some(len) = number_of(word) else {
        return Err(Misfit::Word);
    };
    let seg = NewSeg {
        mode,
        at,
        len,
        desc: false,
    };
    Ok(Creating::Desc { indexed, seg })
}

fn after_desc(indexed: Indexed, seg: NewSeg, word: &[u8]) -> Result<Creating, Misfit>
    ensures { Goes result (next_of_create (Desc indexed seg) word.now) }
{
    if is(word, b"DSCSEG") {
        let desc = NewSeg { desc: true, ..seg };
        return Ok(Creating::More(with_seg(indexed, desc)?));
    }
    let indexed = with_seg(indexed, seg)?;
    after_segment(indexed, word)
}

/// What is read of a CREATE after a word that may come next.
pub(crate) fn next_of_create(
    alloc: Global,
    creating: Creating,
    word: &[u8],
) -> Result<Creating, Misfit>
    ensures { Goes result (next_of_create creating word.now) }
{
    match creating {
        Creating::Kind { name } => after_kind(name, word),
        Creating::FixedLen { name } => match number_of(word) {
            Some(len) => Ok(after_lengths(alloc, name, NewKind::Fixed { len })),
            None => Err(Misfit::Word),
        },
        Creating::Min { name } => match number_of(word) {
            Some(min) => Ok(Creating::Max { name, min }),
            None => Err(Misfit::Word),
        },
        Creating::Max { name, min } => match number_of(word) {
            Some(max) => Ok(after_lengths(alloc, name, NewKind::Variable { min, max })),
            None => Err(Misfit::Word),
        },
        Creating::Key(file) => after_key(file, word),
        Creating::KeyName(file) => {
            let name = name_of(alloc, word)?;
            Ok(Creating::Rule { file, name })
        }
        Creating::Rule { file, name } => after_rule(alloc, file, name, word),
        Creating::NullOrSeg(indexed) => after_null_or_seg(indexed, word),
        Creating::NullByte(indexed) => after_null_byte(indexed, word),
        Creating::Seg(indexed) => after_seg(indexed, word),
        Creating::SegMode(indexed) => after_mode(indexed, word),
        Creating::SegAt { indexed, mode } => after_at(indexed, mode, word),
        Creating::SegLen { indexed, mode, at } => after_len(indexed, mode, at, word),
        Creating::Desc { indexed, seg } => after_desc(indexed, seg, word),
        Creating::More(indexed) => after_segment(indexed, word),
    }
}

/// The file of a CREATE that may end here.
pub(crate) fn created(creating: Creating) -> Result<NewFile, Misfit>
    ensures { Goes result (created creating) }
{
    match creating {
        Creating::Desc { indexed, seg } => Ok(closed(with_seg(indexed, seg)?)?),
        Creating::More(indexed) => Ok(closed(indexed)?),
        _ => Err(Misfit::Word),
    }
}
