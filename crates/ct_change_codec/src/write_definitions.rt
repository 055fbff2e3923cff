//! Writers of definitions, at the end of some bytes. One that can't end leaves a part of the text there.

ghost use Rattle.std.specs.Prelude.{◌≡◌, ◌++◌, ◌<◌, ◌^◌, length, OnOk, OnErr, All};
ghost use Rattle.std.specs.List.{flat_map};
ghost use Rattle.ct_codec.specs.Formats.{any_byte, counted};
ghost use Rattle.ct_codec.specs.Answers.{KeepsFront};
ghost use Rattle.ct_change_codec.specs.DefinitionFormat.{mode_number, seg_codec, null_codec, index_codec, kind_codec, definition_codec, FitsSeg, FitsNull, FitsIndex, FitsKind, FitsDefinition, IndexLengthsFit, DefinitionLengthsFit};

use ct_codec::{write_flag, write_sized_u8, write_u8, write_u16, write_u32};
use ct_definitions::{FileDef, IndexDef, Kind, Mode, Seg};
use ct_items::NoMemory;

fn mode_number(mode: Mode) -> u8
    ensures { result ≡ mode_number mode }
{
    match mode {
        Mode::Reg => 0,
        Mode::Ureg => 1,
        Mode::Int => 2,
        Mode::Sgn => 3,
    }
}

#[tactic(auto, unfolding(crate::specs::DefinitionFormat::seg_codec, crate::specs::DefinitionFormat::mode_codec))]
fn push_seg(seg: &Seg, into: &mut Vec<u8>) -> Result<(), NoMemory>
    ensures ok { OnOk result (into.new.items ≡ into.old.items ++ seg_codec.text seg.now) }
    ensures fits { OnOk result (FitsSeg seg.now) }
    ensures err { OnErr result (KeepsFront into.old.items into.new.items) }
{
    write_u16(seg.at, into)?;
    write_u16(seg.len, into)?;
    write_u8(mode_number(seg.mode), into)?;
    write_flag(seg.desc, into)
}

fn push_segs(segs: &[Seg], into: &mut Vec<u8>) -> Result<(), NoMemory>
    ensures ok { OnOk result (into.new.items ≡ into.old.items ++ flat_map seg_codec.text segs.now) }
    ensures fits { OnOk result (All FitsSeg segs.now) }
    ensures err { OnErr result (KeepsFront into.old.items into.new.items) }
{
    for seg in segs {
        push_seg(seg, into)?;
    }
    Ok(())
}

#[tactic(auto, unfolding(crate::specs::DefinitionFormat::null_codec))]
fn push_null(null: Option<u8>, into: &mut Vec<u8>) -> Result<(), NoMemory>
    ensures ok { OnOk result (into.new.items ≡ into.old.items ++ null_codec.text null) }
    ensures fits { OnOk result (FitsNull null) }
    ensures err { OnErr result (KeepsFront into.old.items into.new.items) }
{
    match null {
        None => {
            write_flag(false, into)?;
            write_u8(0, into)
        }
        Some(byte) => {
            write_flag(true, into)?;
            write_u8(byte, into)
        }
    }
}

#[tactic(auto, unfolding(crate::specs::DefinitionFormat::index_codec))]
fn push_index(index: &IndexDef, into: &mut Vec<u8>) -> Result<(), NoMemory>
    requires { IndexLengthsFit index.now }
    ensures ok { OnOk result (into.new.items ≡ into.old.items ++ index_codec.text index.now) }
    ensures fits { OnOk result (FitsIndex index.now) }
    ensures err { OnErr result (KeepsFront into.old.items into.new.items) }
{
    let segs = index.segs.as_slice();
    write_sized_u8(index.name.as_slice(), into)?;
    write_flag(!index.unique, into)?;
    push_null(index.null, into)?;
    write_u8(segs.len() as u8, into)?;
    push_segs(segs, into)
}

fn push_indexes(indexes: &[IndexDef], into: &mut Vec<u8>) -> Result<(), NoMemory>
    requires { All IndexLengthsFit indexes.now }
    ensures ok { OnOk result (into.new.items ≡ into.old.items ++ flat_map index_codec.text indexes.now) }
    ensures fits { OnOk result (All FitsIndex indexes.now) }
    ensures err { OnErr result (KeepsFront into.old.items into.new.items) }
{
    for index in indexes {
        push_index(index, into)?;
    }
    Ok(())
}

#[tactic(auto, unfolding(crate::specs::DefinitionFormat::kind_codec))]
fn push_kind(kind: Kind, into: &mut Vec<u8>) -> Result<(), NoMemory>
    ensures ok { OnOk result (into.new.items ≡ into.old.items ++ kind_codec.text kind) }
    ensures fits { OnOk result (FitsKind kind) }
    ensures err { OnErr result (KeepsFront into.old.items into.new.items) }
{
    match kind {
        Kind::Fixed(len) => {
            write_flag(false, into)?;
            write_u32(len, into)?;
            write_u32(len, into)
        }
        Kind::Variable { min, max } => {
            write_flag(true, into)?;
            write_u32(min, into)?;
            write_u32(max, into)
        }
    }
}

/// Adds a definition at the end. Where memory runs out, a part of it may stand there.
#[tactic(auto, unfolding(crate::specs::DefinitionFormat::definition_codec))]
pub fn push_definition(def: &FileDef, into: &mut Vec<u8>) -> Result<(), NoMemory>
    requires { DefinitionLengthsFit def.now }
    ensures ok { OnOk result (into.new.items ≡ into.old.items ++ definition_codec.text def.now) }
    ensures fits { OnOk result (FitsDefinition def.now) }
    ensures err { OnErr result (KeepsFront into.old.items into.new.items) }
{
    let indexes = def.indexes.as_slice();
    write_sized_u8(def.name.as_slice(), into)?;
    push_kind(def.kind, into)?;
    write_u8(indexes.len() as u8, into)?;
    push_indexes(indexes, into)
}
