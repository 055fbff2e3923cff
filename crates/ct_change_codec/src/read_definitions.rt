//! Readers of definitions, from the front of some bytes.

ghost use Rattle.std.specs.Prelude.{length};
ghost use Rattle.ct_codec.specs.Formats.{any_byte, counted, times};
ghost use Rattle.ct_codec.specs.Answers.{Gives};
ghost use Rattle.ct_change_codec.specs.DefinitionFormat.{mode_codec, seg_codec, null_codec, index_codec, kind_codec, definition_codec};

use ct_codec::{Fault, read_flag, read_sized_u8, read_u8, read_u16, read_u32};
use ct_definitions::{FileDef, IndexDef, Indexes, Kind, Mode, Seg, Segs};
use ct_items::Items;
use std::alloc::Global;

#[tactic(auto, unfolding(crate::specs::DefinitionFormat::mode_codec))]
fn mode_at(bytes: &[u8]) -> Result<(Mode, &[u8]), Fault>
    ensures { Gives (λ x. (x.0, x.1.now)) result (mode_codec.read bytes.now) }
{
    match bytes {
        [] => Err(Fault::Bad(0)),
        [0, rest @ ..] => Ok((Mode::Reg, rest)),
        [1, rest @ ..] => Ok((Mode::Ureg, rest)),
        [2, rest @ ..] => Ok((Mode::Int, rest)),
        [3, rest @ ..] => Ok((Mode::Sgn, rest)),
        [_, ..] => Err(Fault::Bad(bytes.len())),
    }
}

#[tactic(auto, unfolding(crate::specs::DefinitionFormat::seg_codec))]
fn seg_at(bytes: &[u8]) -> Result<(Seg, &[u8]), Fault>
    ensures { Gives (λ x. (x.0, x.1.now)) result (seg_codec.read bytes.now) }
{
    let (at, rest) = read_u16(bytes)?;
    let (len, rest) = read_u16(rest)?;
    let (mode, rest) = mode_at(rest)?;
    let (desc, rest) = read_flag(rest)?;
    Ok((
        Seg {
            at,
            len,
            mode,
            desc,
        },
        rest,
    ))
}

#[tactic(auto, unfolding(crate::specs::DefinitionFormat::null_codec))]
fn null_at(bytes: &[u8]) -> Result<(Option<u8>, &[u8]), Fault>
    ensures { Gives (λ x. (x.0, x.1.now)) result (null_codec.read bytes.now) }
{
    let (present, rest) = read_flag(bytes)?;
    let (byte, after) = read_u8(rest)?;
    if present {
        return Ok((Some(byte), after));
    }
    if byte != 0 {
        return Err(Fault::Bad(rest.len()));
    }
    Ok((None, after))
}

fn segs_of(alloc: Global, count: u8, bytes: &[u8]) -> Result<(Segs, &[u8]), Fault>
    ensures { Gives (λ x. (x.0, x.1.now)) result ((times seg_codec count).read bytes.now) }
{
    let mut segs = Items::new(alloc);
    let mut rest = bytes;
    for _ in 0..count {
        let (seg, after) = seg_at(rest)?;
        segs.push(seg)?;
        rest = after;
    }
    Ok((segs, rest))
}

fn segs_at(alloc: Global, bytes: &[u8]) -> Result<(Segs, &[u8]), Fault>
    ensures { Gives (λ x. (x.0, x.1.now)) result ((counted any_byte seg_codec).read bytes.now) }
{
    let (count, rest) = read_u8(bytes)?;
    segs_of(alloc, count, rest)
}

#[tactic(auto, unfolding(crate::specs::DefinitionFormat::index_codec))]
fn index_at(alloc: Global, bytes: &[u8]) -> Result<(IndexDef, &[u8]), Fault>
    ensures { Gives (λ x. (x.0, x.1.now)) result (index_codec.read bytes.now) }
{
    let (name, rest) = read_sized_u8(alloc, bytes)?;
    let (duplicates, rest) = read_flag(rest)?;
    let (null, rest) = null_at(rest)?;
    let (segs, rest) = segs_at(alloc, rest)?;
    Ok((
        IndexDef {
            name,
            unique: !duplicates,
            null,
            segs,
        },
        rest,
    ))
}

fn indexes_of(alloc: Global, count: u8, bytes: &[u8]) -> Result<(Indexes, &[u8]), Fault>
    ensures { Gives (λ x. (x.0, x.1.now)) result ((times index_codec count).read bytes.now) }
{
    let mut indexes = Items::new(alloc);
    let mut rest = bytes;
    for _ in 0..count {
        let (index, after) = index_at(alloc, rest)?;
        indexes.push(index)?;
        rest = after;
    }
    Ok((indexes, rest))
}

fn indexes_at(alloc: Global, bytes: &[u8]) -> Result<(Indexes, &[u8]), Fault>
    ensures { Gives (λ x. (x.0, x.1.now)) result ((counted any_byte index_codec).read bytes.now) }
{
    let (count, rest) = read_u8(bytes)?;
    indexes_of(alloc, count, rest)
}

#[tactic(auto, unfolding(crate::specs::DefinitionFormat::kind_codec))]
fn kind_at(bytes: &[u8]) -> Result<(Kind, &[u8]), Fault>
    ensures { Gives (λ x. (x.0, x.1.now)) result (kind_codec.read bytes.now) }
{
    let (variable, rest) = read_flag(bytes)?;
    let (min, rest) = read_u32(rest)?;
    let (max, after) = read_u32(rest)?;
    if variable {
        return Ok((Kind::Variable { min, max }, after));
    }
    if max != min {
        return Err(Fault::Bad(rest.len()));
    }
    Ok((Kind::Fixed(max), after))
}

/// The definition at the front of some bytes, and the bytes after it.
#[tactic(auto, unfolding(crate::specs::DefinitionFormat::definition_codec))]
pub fn definition_at(alloc: Global, bytes: &[u8]) -> Result<(FileDef, &[u8]), Fault>
    ensures { Gives (λ x. (x.0, x.1.now)) result (definition_codec.read bytes.now) }
{
    let (name, rest) = read_sized_u8(alloc, bytes)?;
    let (kind, rest) = kind_at(rest)?;
    let (indexes, rest) = indexes_at(alloc, rest)?;
    Ok((
        FileDef {
            name,
            kind,
            indexes,
        },
        rest,
    ))
}
