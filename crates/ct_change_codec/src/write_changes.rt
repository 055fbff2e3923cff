//! Writers of changes, at the end of some bytes.

ghost use Rattle.std.specs.Prelude.{◌≡◌, ◌++◌, ◌<◌, ◌^◌, length, OnOk, OnErr};
ghost use Rattle.std.specs.Int.{w16, w64};
ghost use Rattle.ct_codec.specs.Formats.{any_byte, number};
ghost use Rattle.ct_codec.specs.Answers.{KeepsFront};
ghost use Rattle.ct_definitions.specs.declared.change.Change.{Change};
ghost use Rattle.ct_change_codec.specs.DefinitionFormat.{definition_codec, FitsDefinition, DefinitionLengthsFit};
ghost use Rattle.ct_change_codec.specs.ChangeFormat.{change_codec, FitsChange, LengthsFit};

use crate::write_definitions::push_definition;
use ct_codec::{write_sized_u32, write_u8, write_u16, write_u64};
use ct_definitions::{Bytes, Change, FileDef};
use ct_items::NoMemory;

#[tactic(auto, unfolding(crate::specs::ChangeFormat::change_codec, crate::specs::ChangeFormat::make_codec))]
fn push_make(file: u16, def: &FileDef, into: &mut Vec<u8>) -> Result<(), NoMemory>
    requires { DefinitionLengthsFit def.now }
    ensures ok { OnOk result (into.new.items ≡ into.old.items ++ change_codec.text (Change.Make file def.now)) }
    ensures fits { OnOk result (FitsChange (Change.Make file def.now)) }
    ensures err { OnErr result (KeepsFront into.old.items into.new.items) }
{
    write_u8(1, into)?;
    write_u16(file, into)?;
    push_definition(def, into)
}

fn push_record(kind: u8, file: u16, num: u64, into: &mut Vec<u8>) -> Result<(), NoMemory>
    ensures ok { OnOk result (into.new.items ≡ into.old.items ++ (any_byte.text kind ++ ((number w16).text file ++ (number w64).text num))) }
    ensures err { OnErr result (KeepsFront into.old.items into.new.items) }
{
    write_u8(kind, into)?;
    write_u16(file, into)?;
    write_u64(num, into)
}

#[tactic(auto, unfolding(crate::specs::ChangeFormat::change_codec, crate::specs::ChangeFormat::add_codec))]
fn push_add(file: u16, num: u64, new: &Bytes, into: &mut Vec<u8>) -> Result<(), NoMemory>
    requires { length new.now < 2 ^ 32 }
    ensures ok { OnOk result (into.new.items ≡ into.old.items ++ change_codec.text (Change.Add file num new.now)) }
    ensures fits { OnOk result (FitsChange (Change.Add file num new.now)) }
    ensures err { OnErr result (KeepsFront into.old.items into.new.items) }
{
    push_record(2, file, num, into)?;
    write_sized_u32(new.as_slice(), into)
}

#[tactic(auto, unfolding(crate::specs::ChangeFormat::change_codec, crate::specs::ChangeFormat::rewrite_codec))]
fn push_rewrite(
    file: u16,
    num: u64,
    old: &Bytes,
    new: &Bytes,
    into: &mut Vec<u8>,
) -> Result<(), NoMemory>
    requires old { length old.now < 2 ^ 32 }
    requires new { length new.now < 2 ^ 32 }
    ensures ok { OnOk result (into.new.items ≡ into.old.items ++ change_codec.text (Change.Rewrite file num old.now new.now)) }
    ensures fits { OnOk result (FitsChange (Change.Rewrite file num old.now new.now)) }
    ensures err { OnErr result (KeepsFront into.old.items into.new.items) }
{
    push_record(3, file, num, into)?;
    write_sized_u32(old.as_slice(), into)?;
    write_sized_u32(new.as_slice(), into)
}

#[tactic(auto, unfolding(crate::specs::ChangeFormat::change_codec, crate::specs::ChangeFormat::delete_codec))]
fn push_delete(file: u16, num: u64, old: &Bytes, into: &mut Vec<u8>) -> Result<(), NoMemory>
    requires { length old.now < 2 ^ 32 }
    ensures ok { OnOk result (into.new.items ≡ into.old.items ++ change_codec.text (Change.Delete file num old.now)) }
    ensures fits { OnOk result (FitsChange (Change.Delete file num old.now)) }
    ensures err { OnErr result (KeepsFront into.old.items into.new.items) }
{
    push_record(4, file, num, into)?;
    write_sized_u32(old.as_slice(), into)
}

/// Adds a change at the end. Where memory runs out, a part of it may stand there.
pub fn push_change(change: &Change, into: &mut Vec<u8>) -> Result<(), NoMemory>
    requires { LengthsFit change.now }
    ensures ok { OnOk result (into.new.items ≡ into.old.items ++ change_codec.text change.now) }
    ensures fits { OnOk result (FitsChange change.now) }
    ensures err { OnErr result (KeepsFront into.old.items into.new.items) }
{
    match change {
        Change::Make { file, def } => push_make(*file, def, into),
        Change::Add { file, num, new } => push_add(*file, *num, new, into),
        Change::Rewrite {
            file,
            num,
            old,
            new,
        } => push_rewrite(*file, *num, old, new, into),
        Change::Delete { file, num, old } => push_delete(*file, *num, old, into),
    }
}

/// Adds a change at the end, or leaves the bytes as they are.
pub fn write_change(change: &Change, into: &mut Vec<u8>) -> Result<(), NoMemory>
    requires { LengthsFit change.now }
    ensures ok { OnOk result (into.new.items ≡ into.old.items ++ change_codec.text change.now) }
    ensures fits { OnOk result (FitsChange change.now) }
    ensures err { OnErr result (into.new.items ≡ into.old.items) }
{
    let before = into.len();
    let written = push_change(change, into);
    if written.is_err() {
        into.truncate(before);
    }
    written
}

/// Adds a definition at the end, or leaves the bytes as they are.
pub fn write_definition(def: &FileDef, into: &mut Vec<u8>) -> Result<(), NoMemory>
    requires { DefinitionLengthsFit def.now }
    ensures ok { OnOk result (into.new.items ≡ into.old.items ++ definition_codec.text def.now) }
    ensures fits { OnOk result (FitsDefinition def.now) }
    ensures err { OnErr result (into.new.items ≡ into.old.items) }
{
    let before = into.len();
    let written = push_definition(def, into);
    if written.is_err() {
        into.truncate(before);
    }
    written
}
