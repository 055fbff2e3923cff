//! Readers of changes, from the front of some bytes.

ghost use Rattle.std.specs.Prelude.{◌≡◌, List, ℕ, ◌++◌, length, IfOk};
ghost use Rattle.ct_codec.specs.Answers.{Gives, ReadsFront, BeginsWith, IsAnswer};
ghost use Rattle.ct_definitions.specs.declared.change.Change.{Change};
ghost use Rattle.ct_definitions.specs.declared.definition.FileDef.{FileDef};
ghost use Rattle.ct_change_codec.specs.DefinitionFormat.{definition_codec, FitsDefinition};
ghost use Rattle.ct_change_codec.specs.ChangeFormat.{make_codec, add_codec, rewrite_codec, delete_codec, change_codec, FitsChange};

use crate::read_definitions::definition_at;
use ct_codec::{Fault, ReadFault, front_of, read_sized_u32, read_u8, read_u16, read_u64};
use ct_definitions::{Change, FileDef};
use std::alloc::Global;

#[tactic(auto, unfolding(crate::specs::ChangeFormat::make_codec))]
fn make_at(alloc: Global, bytes: &[u8]) -> Result<(Change, &[u8]), Fault>
    ensures { Gives (λ x. (x.0, x.1.now)) result (make_codec.read bytes.now) }
{
    let (file, rest) = read_u16(bytes)?;
    let (def, rest) = definition_at(alloc, rest)?;
    Ok((Change::Make { file, def }, rest))
}

#[tactic(auto, unfolding(crate::specs::ChangeFormat::add_codec))]
fn add_at(alloc: Global, bytes: &[u8]) -> Result<(Change, &[u8]), Fault>
    ensures { Gives (λ x. (x.0, x.1.now)) result (add_codec.read bytes.now) }
{
    let (file, rest) = read_u16(bytes)?;
    let (num, rest) = read_u64(rest)?;
    let (new, rest) = read_sized_u32(alloc, rest)?;
    Ok((Change::Add { file, num, new }, rest))
}

#[tactic(auto, unfolding(crate::specs::ChangeFormat::rewrite_codec))]
fn rewrite_at(alloc: Global, bytes: &[u8]) -> Result<(Change, &[u8]), Fault>
    ensures { Gives (λ x. (x.0, x.1.now)) result (rewrite_codec.read bytes.now) }
{
    let (file, rest) = read_u16(bytes)?;
    let (num, rest) = read_u64(rest)?;
    let (old, rest) = read_sized_u32(alloc, rest)?;
    let (new, rest) = read_sized_u32(alloc, rest)?;
    Ok((
        Change::Rewrite {
            file,
            num,
            old,
            new,
        },
        rest,
    ))
}

#[tactic(auto, unfolding(crate::specs::ChangeFormat::delete_codec))]
fn delete_at(alloc: Global, bytes: &[u8]) -> Result<(Change, &[u8]), Fault>
    ensures { Gives (λ x. (x.0, x.1.now)) result (delete_codec.read bytes.now) }
{
    let (file, rest) = read_u16(bytes)?;
    let (num, rest) = read_u64(rest)?;
    let (old, rest) = read_sized_u32(alloc, rest)?;
    Ok((Change::Delete { file, num, old }, rest))
}

/// The change at the front of some bytes, and the bytes after it.
#[tactic(auto, unfolding(crate::specs::ChangeFormat::change_codec))]
pub fn change_at(alloc: Global, bytes: &[u8]) -> Result<(Change, &[u8]), Fault>
    ensures { Gives (λ x. (x.0, x.1.now)) result (change_codec.read bytes.now) }
{
    let (kind, rest) = read_u8(bytes)?;
    match kind {
        1 => make_at(alloc, rest),
        2 => add_at(alloc, rest),
        3 => rewrite_at(alloc, rest),
        4 => delete_at(alloc, rest),
        _ => Err(Fault::Bad(bytes.len())),
    }
}

/// The change at the front of some bytes, and how many of them it takes.
pub fn read_change(alloc: Global, bytes: &[u8]) -> Result<(Change, usize), ReadFault>
    // What is read is spelled so, byte for byte, and fits its fields.
    ensures found { IfOk result (BeginsWith change_codec FitsChange bytes.now) }
    // What is spelled so is read, whatever follows, unless memory ran out.
    ensures only { (change : Change) (rest : List ℕ) → FitsChange change → bytes.now ≡ change_codec.text change ++ rest
        → IsAnswer (change, length (change_codec.text change)) result }
    // A fault's place is that of the first field that does not fit.
    ensures place { ReadsFront change_codec bytes.now result }
{
    front_of(bytes, change_at(alloc, bytes))
}

/// The definition at the front of some bytes, and how many of them it takes.
pub fn read_definition(alloc: Global, bytes: &[u8]) -> Result<(FileDef, usize), ReadFault>
    // What is read is spelled so, byte for byte, and fits its fields.
    ensures found { IfOk result (BeginsWith definition_codec FitsDefinition bytes.now) }
    // What is spelled so is read, whatever follows, unless memory ran out.
    ensures only { (def : FileDef) (rest : List ℕ) → FitsDefinition def → bytes.now ≡ definition_codec.text def ++ rest
        → IsAnswer (def, length (definition_codec.text def)) result }
    // A fault's place is that of the first field that does not fit.
    ensures place { ReadsFront definition_codec bytes.now result }
{
    front_of(bytes, definition_at(alloc, bytes))
}
